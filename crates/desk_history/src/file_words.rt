//! Words for files of requests.
ghost use Rattle.std.specs.Prelude.{◌≡◌};
ghost use Rattle.desk_history.specs.Files.{file_text};

use crate::impact::WhichFile;

impl WhichFile {
    /// Its word: `submitted` or `returned`.
    pub fn text(self) -> &'static str
        ensures { result.now ≡ file_text self }
    {
        match self {
            WhichFile::Submitted => "submitted",
            WhichFile::Returned => "returned",
        }
    }
}
