// What is said of each program that a text spells.
ghost use Rattle.enc_limits.specs.Programs.{IsWithinLimits};
ghost use Rattle.enc_parse.specs.Spells.{Spells};

use enc_ast::Program;

/// A program that a text spells is within the limits: nothing in it is more than may be, and no name in it is a
/// word that the language has for itself. This is a law over the definitions: the call answers nothing, changes
/// nothing and takes no memory.
pub fn spelled_is_within(text: &[u8], program: &Program)
    requires { Spells text.now program.now }
    ensures { IsWithinLimits program.now }
{}
