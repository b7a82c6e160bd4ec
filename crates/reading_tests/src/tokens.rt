//! Spans of the tokens of worked texts.
use dml_lexer::{Token, TokenKind, lex};
use std::test::Fail;

#[test]
fn tokens_have_their_spans(rt: HostRuntime) -> Result<(), Fail> {
    use TokenKind::{LeftBracket, Quoted, RightBracket, Word};
    let rows: [(&[u8], &[(TokenKind, u32, u32)]); 8] = [
        (b"", &[]),
        (b" \t\r\n#x\n#y", &[]),
        (
            b"a[b]",
            &[
                (Word, 0, 1),
                (LeftBracket, 1, 2),
                (Word, 2, 3),
                (RightBracket, 3, 4),
            ],
        ),
        (
            b"ab\"c d\"e#f",
            &[(Word, 0, 2), (Quoted, 2, 7), (Word, 7, 8)],
        ),
        (b"\"\"", &[(Quoted, 0, 2)]),
        (b"# a\rb\nc\r\nd", &[(Word, 6, 7), (Word, 9, 10)]),
        (
            b"\"[#]\n\x01\" \xc3\xa9~!",
            &[(Quoted, 0, 7), (Word, 8, 12)],
        ),
        (b"_find .a.b", &[(Word, 0, 5), (Word, 6, 10)]),
    ];
    for (bytes, wanted) in rows {
        let tokens = lex(rt.alloc(), bytes)?;
        assert_eq!(rt; tokens.len(), wanted.len(), "{bytes:?}");
        for (token, (kind, from, to)) in tokens.as_slice().iter().zip(wanted) {
            let wanted = Token {
                kind: *kind,
                from: *from,
                to: *to,
            };
            assert_eq!(rt; *token, wanted, "{bytes:?}");
        }
    }
    Ok(())
}

#[test]
fn a_text_of_many_tokens(rt: HostRuntime) -> Result<(), Fail> {
    let tokens = lex(
        rt.alloc(),
        b"a [ \"b\" ] c [ \"d\" ] e [ \"f\" ] g [ \"h\" ]",
    )?;
    assert_eq!(rt; tokens.len(), 16);
    let last = Token {
        kind: TokenKind::RightBracket,
        from: 38,
        to: 39,
    };
    assert!(rt; tokens.last() == Some(&last));
    Ok(())
}
