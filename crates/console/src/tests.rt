// That the calls succeed, and what is printed.
use crate::{
    Digits, Failure, Patterns, Poured, Quoted, bits_and_text, hand_items, pattern_of, pour_behind,
    told,
};
use pattern::Pattern;
use sink::{STOCK_BYTES, hand_over};
use text::Manner;

// a or b, and then the text x
const FILE: [u8; 9] = [2, 97, 2, 98, 5, 3, 1, 120, 4];

#[test]
fn bits_and_text_are_poured(rt: HostRuntime) -> Result<(), Failure> {
    let heap = rt.alloc();
    let pattern = told(&rt, pattern_of(&FILE))?;
    let mut pair = bits_and_text(&pattern, "plain".parse::<Manner>()?);
    let handed = hand_over(&mut pair, &[1, 100]);
    assert_eq!(rt; handed.count, 2);
    let mut text = Vec::new(heap);
    let mut buffer = vec![in heap; 0; STOCK_BYTES]?;
    assert_eq!(rt; pour_behind(&mut pair, 1, &mut buffer, &mut text)?, 1);
    assert_eq!(rt; text.as_slice(), b"b".as_slice());
    let handed = hand_over(&mut pair, &[65538]);
    assert_eq!(rt; handed.count, 1);
    let mut poured = Poured::new(heap)?;
    assert_eq!(rt; poured.pour(&mut pair)?, 2);
    assert_eq!(rt; poured.bits.as_slice(), [128].as_slice());
    assert_eq!(rt; poured.text.as_slice(), b"x".as_slice());
    Ok(())
}

#[test]
fn refusals_are_told(rt: HostRuntime) {
    assert!(rt; matches!(told(&rt, pattern_of(&[9])), Err(Failure::Refused)));
    assert!(rt; "both".parse::<Manner>().is_err());
    assert_eq!(rt; "numbered".parse::<Manner>().ok(), Some(Manner::Numbered));
}

// Has one pattern, whatever the name.
#[derive(Drop)]
struct OneFile<'r, R> {
    rt: &'r R,
}

impl<R: Print> Patterns for OneFile<'_, R> {
    fn load(&self, _name: &str) -> Result<Pattern, Failure> {
        told(self.rt, pattern_of(&FILE))
    }
}

#[test]
fn items_are_handed_over(rt: HostRuntime) -> anyhow::Result<()> {
    let heap = rt.alloc();
    for (last, done) in [("98", false), ("65538", true)] {
        let words = vec![in heap;
            String::from_str(heap, "p")?,
            String::from_str(heap, "plain")?,
            String::from_str(heap, "0")?,
            String::from_str(heap, "99")?,
            String::from_str(heap, last)?,
        ]?;
        assert_eq!(rt;
            hand_items(&rt, "t", &words, &OneFile { rt: &rt }).is_ok(),
            done
        );
    }
    Ok(())
}

#[test]
fn bytes_are_shown(rt: HostRuntime) -> anyhow::Result<()> {
    let bytes = [97, 34, 92, 10, 255];
    let (quoted, digits) = (Quoted(&bytes), Digits(&bytes));
    assert_eq!(rt;
        format!(in rt.alloc(); "{quoted}")?.as_str(),
        "\"a\\\"\\\\\\x0a\\xff\""
    );
    assert_eq!(rt;
        format!(in rt.alloc(); "{digits}")?.as_str(),
        " 61 22 5c 0a ff"
    );
    Ok(())
}
