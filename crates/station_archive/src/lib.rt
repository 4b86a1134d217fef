// The entries of `station_c` as an archive for C: each calls the function of its name there, and promises the same.
#![tactic(auto)]

ghost use Rattle.std.specs.Prelude.{◌≡◌, ◌≤◌, length};
ghost use Rattle.floor.specs.Sound.{sound, total};
ghost use Rattle.rules.specs.Codes.{code_from};
ghost use Rattle.rules.specs.Verdicts.{moved_of};
ghost use Rattle.station.specs.Held.{crosses};
ghost use Rattle.station.specs.Station.{start_of};
ghost use Rattle.station.specs.Calls.{taken, event, result as result_call, take_image};
ghost use Rattle.version.specs.Version.{version};
ghost use Rattle.rooms.specs.Rooms.{returned, LeavesRoom, writes, entry, request_of};
ghost use Rattle.rooms.specs.Questions.{moved, answer_to, request_answer, record_in, nexting};
ghost use Rattle.station_c.specs.Entries.{asking, returned_of, Exchanges, exchange, cars_or255};
ghost use Rattle.station_c.specs.Sets.{area_into, pair_answer};

// Writes the start station.
#[unsafe(no_mangle)]
pub extern "C" fn station_start(room: &mut [u8]) -> u32
    ensures { LeavesRoom (entry (λ s. taken start_of) room.old) result room.new }
{
    station_c::station_start(room)
}

// A request of `count` instructions, five bytes each.
#[unsafe(no_mangle)]
pub extern "C" fn station_request(room: &mut [u8], count: u8, set: &[u8]) -> u32
    ensures { LeavesRoom (entry (request_of count set.now) room.old) result room.new }
{
    station_c::station_request(room, count, set)
}

// A car event: a drive begins, 1 in, 2 out; the one under way ends, 3 done, 4 not done.
#[unsafe(no_mangle)]
pub extern "C" fn station_event(room: &mut [u8], way: u8) -> u32
    ensures { LeavesRoom (entry (λ s. event s way) room.old) result room.new }
{
    station_c::station_event(room, way)
}

// The result of an instruction, by the issue of its set and its number from 0: 0 failed, 1 done, 2 stuck.
#[unsafe(no_mangle)]
pub extern "C" fn station_result(room: &mut [u8], issue: u16, number: u8, ending: u8) -> u32
    ensures { LeavesRoom (entry (λ s. result_call s (record { issue = issue; number = number; ending = ending })) room.old) result room.new }
{
    station_c::station_result(room, issue, number, ending)
}

// An image, which becomes the record with nothing set apart.
#[unsafe(no_mangle)]
pub extern "C" fn station_image(room: &mut [u8], image: u64, apart: u64) -> u32
    ensures { LeavesRoom (entry (λ s. take_image s (record { bits = image; apart = apart })) room.old) result room.new }
{
    station_c::station_image(room, image, apart)
}

// The record's eight bytes and then those of what is set apart, to a room of their own.
#[unsafe(no_mangle)]
pub extern "C" fn station_ask(room: &[u8], image: &mut [u8]) -> u32
    ensures { LeavesRoom (asking room.now image.old) result image.new }
{
    station_c::station_ask(room, image)
}

// Answers the first message of a run: the message that answers to reply and, if the message was taken, the next station to room.
#[unsafe(no_mangle)]
pub extern "C" fn station_message(room: &mut [u8], message: &[u8], reply: &mut [u8]) -> u32
    ensures { Exchanges (exchange room.old message.now reply.old) result room.new reply.new }
{
    station_c::station_message(room, message, reply)
}

// The version of what is built here: 65536 times its first number, 256 times its second, and its third.
#[unsafe(no_mangle)]
pub extern "C" fn station_version() -> u32
    ensures { result ≡ version }
{
    station_c::station_version()
}

// Whether an image is sound.
#[unsafe(no_mangle)]
pub extern "C" fn garage_sound(image: u64) -> bool
    ensures { result ≡ sound image }
{
    station_c::garage_sound(image)
}

// The number of cars, 255 if the record isn't sound.
#[unsafe(no_mangle)]
pub extern "C" fn garage_cars(image: u64) -> u32
    ensures { result ≡ cars_or255 (total image) }
{
    station_c::garage_cars(image)
}

// What a request of the instruction that five bytes say is told on a record.
#[unsafe(no_mangle)]
pub extern "C" fn garage_allowed(image: u64, five: &[u8]) -> u32
    ensures { result ≡ returned (request_answer image five.now) }
{
    station_c::garage_allowed(image, five)
}

// The eight bytes of the record after an instruction, to a room of their own.
#[unsafe(no_mangle)]
pub extern "C" fn garage_next(image: u64, five: &[u8], next: &mut [u8]) -> u32
    ensures { LeavesRoom (nexting image five.now next.old) result next.new }
{
    station_c::garage_next(image, five, next)
}

// The eight bytes of an instruction's area, to a room of their own.
#[unsafe(no_mangle)]
pub extern "C" fn garage_area(five: &[u8], area: &mut [u8]) -> u32
    ensures { LeavesRoom (area_into five.now area.old) result area.new }
{
    station_c::sets::garage_area(five, area)
}

// What a request of these two, in this order, is told so far as they alone decide.
#[unsafe(no_mangle)]
pub extern "C" fn garage_overlap(one: &[u8], other: &[u8]) -> u32
    ensures { result ≡ returned (pair_answer one.now other.now) }
{
    station_c::sets::garage_overlap(one, other)
}
