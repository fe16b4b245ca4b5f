// The marking desk: reads a pupil's answer sheet from standard input and writes for each line `right` or `wrong` and the server's fields, then `marks`
// and the count of right lines. All of it is the crate sitting's run of the desk; what it writes is `desk_of` of the sheet that it read
// (crates/marking/specs/Desk.antt; DeskPrints in specs/Desk.antt).
#![tactic(auto)]

ghost use Rattle.sitting.specs.Whole.{Sat};
ghost use Rattle.marking.specs.declared.Kind.TheVariants as kind;

use marking::Kind;
use std::io::{Stdin, Stdout};

fn run(stdin: Stdin, stdout: Stdout)
    ensures { Sat kind.Desk }
{
    sitting::sit(stdin, stdout, Kind::Desk);
}

fn main(rt: HostRuntime) {
    run(rt.stdin(), rt.stdout());
}
