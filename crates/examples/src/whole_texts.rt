// An example of a whole text of calls and its answers, with work areas that are just long enough.
use amounts::{Amount, Cents, Kilograms, Ranked};
use protocol::answer_into;
use std::test::Fail;

// Two legs, a window and another total; then a window that cannot be met.
const CALLS: &[u8] = b"110001003C0000000000320046
110001003C0000000000320046
010078
03010032003D
05007D
0301000A0014
";

const ANSWERS: &[u8] = b"80
80
8102003C003C00000000000000000000000000000000
8102003C003C00000000000000000000000000000000
8102003D004000000000000000110000000000000000
EE1003010006
";

#[test]
fn two_legs(rt: HostRuntime) -> Result<(), Fail> {
    let nothing: Ranked<Kilograms, Cents> = Ranked::zero();
    let mut minutes = [0; 252];
    let mut amounts = [nothing; 252];
    let mut out = Vec::new(rt.alloc());
    answer_into(CALLS, &mut minutes, &mut amounts, &mut out)?;
    assert!(rt; out.as_slice() == ANSWERS);
    Ok(())
}
