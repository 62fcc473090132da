use super::bounds::{GREATEST_VALUE, LARGEST_NUMBER, LAST_KIND, LEAST_VALUE};
use super::{Alphabet, Bytes, Token, Tokens, item};
use std::test::Fail;

// A class, and the bytes at its edges: two that belong and two that do not.
const BYTES: [(u32, [u8; 2], [u8; 2]); 8] = [
    (0, [0, 0], [1, 255]),
    (255, [255, 255], [254, 0]),
    (Bytes::DIGIT, [b'0', b'9'], [b'/', b':']),
    (Bytes::LETTER, [b'A', b'Z'], [b'@', b'[']),
    (Bytes::LETTER, [b'a', b'z'], [b'`', b'{']),
    (Bytes::IN_FIELD, [b'+', b'-'], [b',', b'\n']),
    (Bytes::IN_FIELD, [12, 14], [b'\r', b'\n']),
    (Bytes::IN_LINE, [9, 11], [b'\n', b'\n']),
];

#[test]
fn bytes_at_the_edges(rt: HostRuntime) {
    for (class, inside, outside) in BYTES {
        for byte in inside {
            assert!(rt; Bytes.belongs(class, &byte));
        }
        for byte in outside {
            assert!(rt; !Bytes.belongs(class, &byte));
        }
    }
    for byte in 0..=255u8 {
        assert!(rt; Bytes.belongs(byte as u32, &byte) && Bytes.belongs(Bytes::ANY, &byte));
        assert!(rt; !Bytes.belongs(Bytes::CLASSES, &byte) && Bytes.number(&byte) == byte as u32);
    }
    assert_eq!(rt; Bytes.class_count(), 261);
}

fn made(kind: u8, value: i16) -> Result<Token, Fail> {
    Token::new(kind, value).ok_or_else(|| Fail::new("kind and value in bounds"))
}

#[test]
fn tokens_at_the_edges(rt: HostRuntime) -> Result<(), Fail> {
    for kind in 0..=LAST_KIND {
        let class = kind as u32;
        for (value, below) in [
            (LEAST_VALUE, true),
            (-1, true),
            (0, false),
            (GREATEST_VALUE, false),
        ] {
            let token = made(kind, value)?;
            assert!(rt; Tokens.belongs(class, &token) && !Tokens.belongs(class + 1, &token));
            assert_eq!(rt; Tokens.belongs(Tokens::BELOW_ZERO + class, &token), below);
            assert!(rt;
                Tokens.belongs(Tokens::ANY, &token) && !Tokens.belongs(Tokens::CLASSES, &token)
            );
            assert_eq!(rt; Token::try_from(u32::from(token)), Ok(token));
        }
    }
    assert_eq!(rt; Tokens.class_count(), 33);
    Ok(())
}

#[test]
fn numbers(rt: HostRuntime) -> Result<(), Fail> {
    let token = made(2, -5)?;
    assert_eq!(rt; Tokens.number(&token), 10_235);
    assert_eq!(rt; item::read_item(&Tokens, Tokens::ANY, &token), Some(10_237));
    assert_eq!(rt; item::read_item(&Tokens, 3, &token), None);
    assert!(rt;
        Token::new(LAST_KIND + 1, 0).is_none() && Token::try_from(LARGEST_NUMBER + 1).is_err()
    );
    assert!(rt;
        Token::new(0, LEAST_VALUE - 1).is_none() && Token::new(0, GREATEST_VALUE + 1).is_none()
    );
    assert_eq!(rt; (item::FIRST, item::SECOND), (0, 1));
    assert_eq!(rt; (item::LAST_READ, item::END_MARK), (65_537, 65_538));
    Ok(())
}
