// What holds of every run of a program in the thin form.
ghost use Rattle.std.specs.Prelude.{IsTrue};
ghost use Rattle.enc_ast.specs.Thin.{is_thin};
ghost use Rattle.enc_model.specs.Laws.{NeverStuck, NeverBlocked, StopsSoon};
ghost use Rattle.enc_rules.specs.WellTyped.{WellTyped};

use enc_ast::Program;
use enc_thin::thin_is_well_typed;

/// Each step of each run has a meaning. This is a law over the definitions: the call answers nothing,
/// changes nothing and takes no memory.
pub fn never_stuck(program: &Program)
    requires { IsTrue (is_thin program.now) }
    ensures { NeverStuck program.now }
{}

/// No run waits for what doesn't come. This is a law over the definitions: the call answers nothing,
/// changes nothing and takes no memory.
pub fn never_blocked(program: &Program)
    requires { IsTrue (is_thin program.now) }
    ensures { NeverBlocked program.now }
{}

/// Each run has few steps. This is a law over the definitions: the call answers nothing, changes
/// nothing and takes no memory.
pub fn stops_soon(program: &Program)
    requires { IsTrue (is_thin program.now) }
    ensures { StopsSoon program.now }
{}

/// A program in the thin form keeps all rules of the checker. This is a law over the definitions: the
/// call answers nothing, changes nothing and takes no memory.
pub fn thin_accepted(program: &Program)
    requires { IsTrue (is_thin program.now) }
    ensures { WellTyped program.now }
{
    thin_is_well_typed();
}
