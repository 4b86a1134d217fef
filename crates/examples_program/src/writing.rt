// What all three write. A write that fails is not told, and the next one is tried all the same.
pub fn text(rt: &HostRuntime, t: &str) {
    let _ = rt.write_all(t.as_bytes());
}

pub fn number(rt: &HostRuntime, n: u64) {
    let _ = print!(rt; "{n}");
}

// A number in hex, behind a blank.
pub fn hex(rt: &HostRuntime, n: u64) {
    text(rt, " ");
    let _ = print!(rt; "{n:016x}");
}
