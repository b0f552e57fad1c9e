//! The traits of what names a file.
ghost use Rattle.std.specs.Prelude.{◌≡◌, ◌<◌, List, ℕ, Option, Some, length, string_bytes, option_copied};
ghost use Rattle.ff_files.specs.Names.{names_of, files_of, name_at as name_by};

/// What names a file.
pub trait Named {
    /// The name.
    ghost name_text: { Self → List ℕ };

    /// The name.
    fn name(&self) -> &str
        ensures { result.now ≡ name_text self.now };
}

impl Named for String {
    ghost name_text = { string_bytes };

    fn name(&self) -> &str {
        self.as_str()
    }
}

/// The name of this number.
pub(crate) fn name_at<N: Named>(files: &[N], k: usize) -> &str
    requires { k < length files.now }
    ensures { name_by (names_of N.name_text files.now) k ≡ Some result.now }
{
    files[k].name()
}

/// An output as a run names it: a file, or nothing that goes anywhere.
pub trait OutputFile {
    /// The name of its file, where it is one.
    ghost file_name: { Self → Option (List ℕ) };

    /// The name of its file, where it is one.
    fn file(&self) -> Option<&str>
        ensures { option_copied result ≡ file_name self.now };
}

/// The name of the output of this number, where it is a file.
pub(crate) fn file_at<N: OutputFile>(outputs: &[N], k: usize) -> Option<&str>
    requires { k < length outputs.now }
    ensures { option_copied result ≡ name_by (files_of N.file_name outputs.now) k }
{
    outputs[k].file()
}
