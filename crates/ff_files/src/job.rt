//! The inputs and the outputs of a job: their names, and how the heads of the inputs are read.
ghost use Rattle.ff_words.specs.Words.{output_file};
ghost use Rattle.ff_input.specs.Formats.{IsHead, input_head};
ghost use Rattle.ff_input.specs.laws.Places.{Reached};

use crate::head::InputFile;
use crate::named::{Named, OutputFile};
use ff_frame::HeadEnd;
use ff_input::{InputHead, InputWalk};
use ff_words::{InputJob, OutputJob};

impl Named for InputJob {
    ghost name_text = { λ job. job.name };

    fn name(&self) -> &str {
        self.name.as_str()
    }
}

impl OutputFile for OutputJob {
    ghost file_name = { output_file };

    fn file(&self) -> Option<&str> {
        if self.format.has_file() {
            Some(self.name.as_str())
        } else {
            None
        }
    }
}

impl InputFile for InputJob {
    type Head = InputHead;

    type Walk = InputWalk;

    ghost head = { λ job. input_head job.format };

    ghost is_sound = { IsHead };

    ghost reached = { λ job walk front. Reached walk job.format front };

    fn begin(&self) -> InputWalk {
        InputWalk::new(self.format)
    }

    fn read_head(
        &self,
        walk: &mut InputWalk,
        bytes: &[u8],
        whole: bool,
    ) -> Result<InputHead, HeadEnd> {
        walk.read(bytes, whole)
    }
}
