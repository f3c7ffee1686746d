// Prints reach and privileges after a fixed script of changes. tools/reach_by_hand.py works the same lines by another route, from
// the words of document 01 alone; what it prints is the file stdout that this program is held to.

#![tactic(auto)]

mod above;
mod administered;
mod held;
mod orphans;
mod permitted;
mod script;
mod text;
mod under;

use std::io;

// The script names the objects 0 to 12.
const NAMED: u8 = 13;

fn main(rt: HostRuntime) -> io::Result<()> {
    let mut out = rt.stdout();
    let p = script::policy();
    under::lines(&mut out, p)?;
    above::lines(&mut out, p)?;
    held::lines(&mut out, p)?;
    administered::lines(&mut out, p)?;
    permitted::lines(&mut out, p)?;
    orphans::line(&mut out, p)
}
