// Texts that are made: deep ones and long ones.
use std::alloc::{AllocError, Global};

fn put_times(out: &mut Vec<u8>, word: &[u8], times: u32) -> Result<(), AllocError> {
    for _ in 0..times {
        out.extend_from_slice(word)?;
    }
    Ok(())
}

/// So many minus signs before a parameter.
pub fn minus(alloc: Global, signs: u32) -> Result<Vec<u8>, AllocError> {
    let mut text = Vec::new(alloc);
    text.extend_from_slice(b"u32 f_f(u32 p_register_0)\n{\n  return -")?;
    put_times(&mut text, b"(-", signs.saturating_sub(1))?;
    text.extend_from_slice(b"p_register_0")?;
    put_times(&mut text, b")", signs.saturating_sub(1))?;
    text.extend_from_slice(b";\n}\n")?;
    Ok(text)
}

/// So many loops in one another.
pub fn loops(alloc: Global, depth: u32) -> Result<Vec<u8>, AllocError> {
    let mut text = Vec::new(alloc);
    text.extend_from_slice(b"void f_f(void)\n{\n")?;
    for level in 0..depth {
        put_times(&mut text, b"  ", level.saturating_add(1))?;
        text.extend_from_slice(b"while (1) {\n")?;
    }
    for level in 0..depth {
        put_times(&mut text, b"  ", depth.saturating_sub(level))?;
        text.extend_from_slice(b"}\n")?;
    }
    text.extend_from_slice(b"}\n")?;
    Ok(text)
}

// A line with a number in the middle.
fn put_line(
    alloc: Global,
    text: &mut Vec<u8>,
    front: &[u8],
    n: u32,
    back: &[u8],
) -> Result<(), AllocError> {
    let digits = n.to_string(alloc)?;
    text.extend_from_slice(front)?;
    text.extend_from_slice(digits.as_bytes())?;
    text.extend_from_slice(back)
}

/// So many of the prototype's arguments and one more, with the offset `last`, each of them assigned.
pub fn params(alloc: Global, count: u32, last: u32) -> Result<Vec<u8>, AllocError> {
    let mut text = Vec::new(alloc);
    text.extend_from_slice(b"void f_f(")?;
    for n in 0..count {
        put_line(alloc, &mut text, b"u32 p_register_", n, b", ")?;
    }
    put_line(alloc, &mut text, b"u32 p_register_", last, b")\n{\n")?;
    for n in 0..count {
        put_line(alloc, &mut text, b"  p_register_", n, b" = ")?;
        put_line(alloc, &mut text, b"p_register_", last, b";\n")?;
    }
    text.extend_from_slice(b"  return;\n}\n")?;
    Ok(text)
}

/// A switch with so many arms and one more, with the case value `last`.
pub fn cases(alloc: Global, count: u32, last: u32) -> Result<Vec<u8>, AllocError> {
    let mut text = Vec::new(alloc);
    text.extend_from_slice(b"void f_f(u64 p_register_0)\n{\n  switch (p_register_0) {\n")?;
    for n in 0..count {
        put_line(alloc, &mut text, b"  case 0x", n, b":\n    break;\n")?;
    }
    put_line(alloc, &mut text, b"  case 0x", last, b":\n    break;\n")?;
    text.extend_from_slice(b"  }\n  return;\n}\n")?;
    Ok(text)
}

/// So many callees and one more, with the address `last`, each of them called.
pub fn calls(alloc: Global, count: u32, last: u32) -> Result<Vec<u8>, AllocError> {
    let mut text = Vec::new(alloc);
    for n in 0..count {
        put_line(alloc, &mut text, b"void f_c", n, b"(void); // 0x")?;
        put_line(alloc, &mut text, b"", n, b"\n")?;
    }
    put_line(alloc, &mut text, b"void f_last(void); // 0x", last, b"\n")?;
    text.extend_from_slice(b"void f_f(void)\n{\n")?;
    for n in 0..count {
        put_line(alloc, &mut text, b"  f_c", n, b"();\n")?;
    }
    text.extend_from_slice(b"  f_last();\n  return;\n}\n")?;
    Ok(text)
}
