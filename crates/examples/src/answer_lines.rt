// Examples of answer lines.
use answers::kinds::{Answer, Reading};
use board::{Layer, Refusal};
use std::test::Fail;

#[test]
fn writes(rt: HostRuntime) -> Result<(), Fail> {
    let mut text = Vec::new(rt.alloc());
    Answer::Done.write(&mut text)?;
    Answer::Timing {
        minutes: &[61, 64],
        kilograms: 17,
        cents: 0,
    }
    .write(&mut text)?;
    Answer::Refused {
        refusal: Refusal {
            number: 16,
            layer: Layer::Sheet,
            leg: 1,
        },
        line: 6,
    }
    .write(&mut text)?;
    assert!(rt;
        text.as_slice()
            == b"80\n8102003D004000000000000000110000000000000000\nEE1003010006\n".as_slice()
    );
    Ok(())
}

#[test]
fn writes_extremes(rt: HostRuntime) -> Result<(), Fail> {
    let mut text = Vec::new(rt.alloc());
    Answer::Timing {
        minutes: &[4095],
        kilograms: -140737488355328,
        cents: 140737488355328,
    }
    .write(&mut text)?;
    Answer::Timing {
        minutes: &[],
        kilograms: -1,
        cents: 1,
    }
    .write(&mut text)?;
    Answer::Refused {
        refusal: Refusal {
            number: 6,
            layer: Layer::Book,
            leg: 255,
        },
        line: 65535,
    }
    .write(&mut text)?;
    assert!(rt;
        text.as_slice()
            == b"81010FFFFFFF8000000000000000800000000000\n8100FFFFFFFFFFFFFFFF0000000000000001\nEE0602FFFFFF\n".as_slice()
    );
    Ok(())
}

#[test]
fn writes_64_legs_at_most(rt: HostRuntime) -> Result<(), Fail> {
    let mut whole = Vec::new(rt.alloc());
    Answer::Timing {
        minutes: &[70; 64],
        kilograms: 0,
        cents: 0,
    }
    .write(&mut whole)?;
    let mut cut = Vec::new(rt.alloc());
    Answer::Timing {
        minutes: &[70; 65],
        kilograms: 0,
        cents: 0,
    }
    .write(&mut cut)?;
    assert_eq!(rt; whole.len(), 293);
    assert!(rt; whole.as_slice() == cut.as_slice());
    Ok(())
}

#[test]
fn reads(rt: HostRuntime) {
    let mut minutes = [9; 64];
    assert_eq!(rt; Reading::read(b"80", &mut minutes), Some(Reading::Done));
    assert_eq!(rt;
        Reading::read(
            b"8102003C003C00000000000000000000000000000000",
            &mut minutes,
        ),
        Some(Reading::Timing {
            legs: 2,
            kilograms: 0,
            cents: 0,
        })
    );
    assert!(rt; minutes[0..3] == [60, 60, 9]);
    assert_eq!(rt;
        Reading::read(b"EE1003010006", &mut minutes),
        Some(Reading::Refused {
            refusal: Refusal {
                number: 16,
                layer: Layer::Sheet,
                leg: 1,
            },
            line: 6,
        })
    );
}

#[test]
fn reads_nothing_else(rt: HostRuntime) {
    let mut minutes = [9; 64];
    assert_eq!(rt; Reading::read(b"8000", &mut minutes), None);
    assert_eq!(rt; Reading::read(b"EE1004010006", &mut minutes), None);
    assert_eq!(rt;
        Reading::read(
            b"8101003C003C00000000000000000000000000000000",
            &mut minutes,
        ),
        None
    );
    assert!(rt; minutes[0..2] == [9, 9]);
}
