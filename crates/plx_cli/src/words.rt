//! The words of the command line.
ghost use Rattle.std.specs.Prelude.{◌↔◌, IsTrue};
ghost use Rattle.plx_cli.specs.Program.{IsReplay};

/// Whether the words are the program's name and `replay`.
pub(crate) fn is_replay(words: &[String]) -> bool
    ensures { IsTrue result ↔ IsReplay words.now }
{
    match words {
        [_, word] => word.as_str() == "replay",
        _ => false,
    }
}
