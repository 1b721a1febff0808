//! Texts of several modules in one.
use std::alloc::{AllocError, Global};
use std::str;

/// The texts that are in one, each after `====` and a blank or a line end but the first. What isn't UTF-8 is one text.
pub fn texts_of<'a>(alloc: Global, whole: &'a [u8]) -> Result<Vec<&'a [u8]>, AllocError> {
    let mut texts = Vec::new(alloc);
    let Ok(text) = str::from_utf8(whole) else {
        texts.push(whole)?;
        return Ok(texts);
    };
    for text in text.split("====") {
        texts.push(without_first_blank(text).as_bytes())?;
    }
    Ok(texts)
}

/// The text after a blank or a line end that it begins with.
fn without_first_blank(text: &str) -> &str {
    let text = text.strip_prefix(' ').unwrap_or(text);
    text.strip_prefix('\n').unwrap_or(text)
}
