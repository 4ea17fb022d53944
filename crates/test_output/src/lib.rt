// Texts, numbers and pixels put on standard output.
#![tactic(auto)]

// Each pixel behind a space.
pub fn put_pixels(rt: &impl Print, pixels: &[i32]) {
    for z in pixels {
        put_space(rt);
        put_integer(rt, i64::from(*z));
    }
}

pub fn put_integer(rt: &impl Print, z: i64) {
    let _ = rt.print(z);
}

pub fn put_space(rt: &impl Print) {
    put(rt, b" ");
}

pub fn put_number(rt: &impl Print, n: usize) {
    let _ = rt.print(n);
}

pub fn put(rt: &impl Print, s: &[u8]) {
    let _ = rt.write_all(s);
}

// Bytes in double quotes. One outside 32..126, or among those named, is shown as two hexadecimal digits between two marks.
pub fn put_quoted(rt: &impl Print, s: &[u8], named: &[u8], before: &str, behind: &str) {
    put(rt, b"\"");
    for b in s {
        if matches!(*b, b' '..=b'~') && !named.contains(b) {
            put(rt, &[*b]);
        } else {
            let _ = print!(rt; "{before}{b:02x}{behind}");
        }
    }
    put(rt, b"\"");
}
