//! The name that somebody meant.
use crate::explain::told::Told;
use strsim::osa_distance;

/// How many edits are near: one for each four characters, at most three.
fn near(word: &str) -> usize {
    let length = word.chars().count();
    if length < 12 { length / 4 } else { 3 }
}

/// The first of the names that are nearest to a word, if one is near. An edit changes, adds, drops or swaps characters.
pub(crate) fn nearest<'a>(told: &mut Told, word: &str, names: &[&'a str]) -> Option<&'a str> {
    let mut found = None;
    let mut least = near(word).saturating_add(1);
    for name in names.iter() {
        match osa_distance(told.alloc, word, name) {
            Ok(edits) => {
                if edits < least {
                    least = edits;
                    found = Some(*name);
                }
            }
            Err(_) => told.fail(),
        }
    }
    found
}
