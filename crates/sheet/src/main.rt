// The right answer sheet of a script: each line's fields as they stand, then all that `passday` prints for it, less the session. All of it is the crate
// sitting's run of the sheet; what it writes is `right_sheet_of` of the script that it read (crates/marking/specs/Desk.antt; SheetPrints in
// specs/Sheet.antt).
#![tactic(auto)]

ghost use Rattle.sitting.specs.Whole.{Sat};
ghost use Rattle.marking.specs.declared.Kind.TheVariants as kind;

use marking::Kind;
use std::io::{Stdin, Stdout};

fn run(stdin: Stdin, stdout: Stdout)
    ensures { Sat kind.Sheet }
{
    sitting::sit(stdin, stdout, Kind::Sheet);
}

fn main(rt: HostRuntime) {
    run(rt.stdin(), rt.stdout());
}
