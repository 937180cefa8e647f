// What a piece of the form leaves behind it.
ghost use Rattle.std.specs.Prelude.{◌≤◌};
ghost use Rattle.model.specs.Emit.{form_limit};
ghost use Rattle.variables.specs.Variables.{few};

use crate::Vars;

// The number of the node behind a piece, and the variables after it, of which there are few for so many nodes. The next piece goes on from there.
#[derive(Clone, Copy)]
pub struct Made {
    pub at: u32,
    pub vars: Vars,
    pub ghost few_variables: { at ≤ form_limit → few at vars.next },
}
