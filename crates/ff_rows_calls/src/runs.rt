//! Answers to numbers in a row, told in runs.
use crate::table::Stop;
use crate::told::Told;

/// Answers to numbers in a row, of which those that follow each other and are the same are told once: `0-43 not yet; 44 end`.
#[derive(Drop)]
pub struct Runs {
    /// Whether a run was told.
    begun: bool,
    /// The first and the last number of the run in hand, and its answer.
    run: Option<(usize, usize, String)>,
}

impl Runs {
    /// No answers.
    pub fn new() -> Runs {
        Runs {
            begun: false,
            run: None,
        }
    }

    // Tells a run that is over.
    fn tell(&mut self, told: &mut Told, first: usize, last: usize, answer: &str) {
        if self.begun {
            told.text("; ");
        }
        self.begun = true;
        told.count(first as u64);
        if first != last {
            told.text("-");
            told.count(last as u64);
        }
        told.texts(&[" ", answer]);
    }

    // Adds the answer to the next number.
    fn add_text(&mut self, told: &mut Told, number: usize, answer: String) {
        let run = match self.run.take() {
            None => (number, number, answer),
            Some((first, _, same)) if same == answer => (first, number, answer),
            Some((first, last, other)) => {
                self.tell(told, first, last, other.as_str());
                (number, number, answer)
            }
        };
        self.run = Some(run);
    }

    /// Adds the answer to the next number, and answers whether there is one.
    pub fn add(&mut self, told: &mut Told, number: usize, answer: Told) -> bool {
        match answer.finish() {
            Ok(answer) => {
                self.add_text(told, number, answer);
                true
            }
            Err(stop) => {
                told.fail(stop);
                false
            }
        }
    }

    /// Tells the run in hand, the last.
    pub fn end(self, told: &mut Told) {
        let mut all = self;
        if let Some((first, last, answer)) = all.run.take() {
            all.tell(told, first, last, answer.as_str());
        }
    }
}
