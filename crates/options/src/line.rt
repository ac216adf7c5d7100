// What the words say.
use crate::Edits;
use lint_values::{Text, Texts};

/// What the words say: edits of the options, the files in order, the options file and the number of a made text.
#[derive(Debug, Drop)]
pub struct Line {
    pub edits: Edits,
    pub files: Texts,
    pub rcfile: Option<Text>,
    pub generate: Option<u32>,
}
