// The lines that the paper marks as run only: messages, read as the station's program reads them, and their requests on the start.
use crate::examples::told;
use crate::writing::text;
use station::{Outcome, Station};

// A message of a request, and what it is answered: by the reader, or by the station.
fn sent(rt: &HostRuntime, name: &str, m: &[u8]) {
    text(rt, "run");
    let station = Station::start();
    let outcome = match wire::read_asked(m).says {
        Ok(message) => station.request(message.count, message.set),
        Err(answer) => Outcome { station, answer },
    };
    told(rt, name, outcome);
    text(rt, "\n")
}

// A request of nine with this length, and zeros after the count.
fn nine(rt: &HostRuntime, name: &str, length: u8) {
    let mut m = [0u8; 50];
    m[0] = length;
    m[2] = 1;
    m[4] = 9;
    sent(rt, name, &m)
}

// Writes a line for each.
pub fn all(rt: &HostRuntime) {
    // its length, its kind and the count; belts of row 1 at the left and at the right, of row 2 and of row 3; left shuttles, lowered and
    // tilted, and right ones. No two overlap, and each is allowed on the start record
    sent(
        rt,
        "eight instructions",
        b"\x2B\x00\x01\x00\x08\x01\x01\x03\x00\x01\x01\x01\x08\x01\x00\x01\x02\x02\x00\x01\x01\x03\x02\x01\x01\x02\x00\x02\x00\x01\x02\x00\x04\x01\x00\x02\x01\x03\x00\x01\x02\x01\x04\x01\x00",
    );
    nine(rt, "nine at length 43", 43);
    nine(rt, "nine at length 48", 48);
    nine(rt, "length 44", 44);
    sent(
        rt,
        "mask 5 in row 3",
        b"\x08\x00\x01\x00\x01\x01\x03\x05\x01\x01",
    );
    sent(
        rt,
        "half in row 2",
        b"\x08\x00\x01\x00\x01\x01\x02\x02\x01\x00",
    )
}
