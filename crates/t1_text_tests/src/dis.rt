//! Words and their texts, and the texts as words again.

use std::test::Fail;
use t1_asm::assemble;
use t1_dis::disassemble;
use t1_vectors::words_and_texts;

#[test]
fn words_have_these_texts(rt: HostRuntime) -> Result<(), Fail> {
    let mut tried = 0u64;
    for row in words_and_texts().lines() {
        if let Some((word, text)) = row.split_once(" ") {
            let found = disassemble(0x100, u32::from_str_radix(word, 16)?);
            assert_eq!(rt; found.as_str(), text, "for {word}");
            tried = tried.saturating_add(1);
        }
    }
    assert_eq!(rt; tried, 223);
    Ok(())
}

#[test]
fn texts_are_their_words_again(rt: HostRuntime) -> Result<(), Fail> {
    for row in words_and_texts().lines() {
        if let Some((word, _)) = row.split_once(" ") {
            let word = u32::from_str_radix(word, 16)?;
            let mut source = Vec::new(rt.alloc());
            source.extend_from_slice(b".org 0x100\n")?;
            source.extend_from_slice(disassemble(0x100, word).as_str().as_bytes())?;
            assert!(rt; source.len() <= 200);
            let object = assemble(rt.alloc(), source.as_slice())?;
            for chunk in object.chunks.as_slice() {
                assert_eq!(rt; chunk.addr, 0x100, "for {row}");
                assert_eq!(rt;
                    chunk.bytes.as_slice(),
                    word.to_be_bytes().as_slice(),
                    "for {row}"
                );
            }
        }
    }
    Ok(())
}
