//! The calls on words that no run makes: lists of words are built in another way there.

use cdf_model::Words;
use std::test::Fail;

#[test]
fn words_are_pushed(rt: HostRuntime) -> Result<(), Fail> {
    let mut words = Words::new(rt.alloc());
    words.push(b"a\"b")?;
    assert_eq!(rt; words.iter().next_word(), Some(b"a\"b".as_slice()));
    Ok(())
}
