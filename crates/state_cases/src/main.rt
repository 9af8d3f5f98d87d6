// Constructed states that no script of calls can reach, one for each case of refusal 2 at its limit and past it, the order of the
// refusals, samples with too little room, and the lengths of whole buffers. Each line says what was built and the refusal number of the
// call. `kept` says that the whole buffer is as before and nothing is counted, `rest kept` that every byte past the answer is as before,
// `spilt` that one is not; of a whole buffer, how many bytes were taken and how many bytes the answers have.
#![tactic(auto)]

mod build;
mod call;

use build::{
    bearing, change_waited, changing, displayed, held, in_unit, left_behind, ranged, repeated,
    showing, showing_ranged, tared, waited, zeroed,
};
use call::{try_lengths, try_room, try_sample, try_state, try_text};
use model::{Pending, Profile, start_state};
use profiles::profile_a;
use std::io;
use weight::WeightUnit;

fn weighings(rt: &impl Print) -> io::Result<()> {
    try_state(rt, "zero 4400000: ", zeroed(4_400_000))?;
    try_state(rt, "zero 4400001: ", zeroed(4_400_001))?;
    try_state(rt, "zero -4400000: ", zeroed(-4_400_000))?;
    try_state(rt, "zero -4400001: ", zeroed(-4_400_001))?;
    try_state(rt, "tare 220000000: ", tared(220_000_000))?;
    try_state(rt, "tare 220000001: ", tared(220_000_001))?;
    try_state(rt, "tare 4294967295: ", tared(4_294_967_295))?;
    try_sample(rt, "tare 4294967295, a sample: ", tared(4_294_967_295), 384)
}

// An enum of nine has no unit outside them.
fn units(rt: &impl Print) -> io::Result<()> {
    for (label, unit) in [
        ("g in force: ", WeightUnit::G),
        ("mg in force: ", WeightUnit::Mg),
        ("ct in force: ", WeightUnit::Ct),
        ("oz in force: ", WeightUnit::Oz),
        ("ozt in force: ", WeightUnit::Ozt),
        ("GN in force: ", WeightUnit::Gn),
        ("dwt in force: ", WeightUnit::Dwt),
        ("kg in force: ", WeightUnit::Kg),
        ("lb in force: ", WeightUnit::Lb),
    ] {
        try_state(rt, label, in_unit(unit))?;
    }
    Ok(())
}

fn lines(rt: &impl Print) -> io::Result<()> {
    for (label, len) in [
        ("64 line bytes held: ", 64),
        ("65 line bytes held: ", 65),
        ("255 line bytes held: ", 255),
    ] {
        try_state(rt, label, held(len))?;
    }
    Ok(())
}

fn displays(rt: &impl Print) -> io::Result<()> {
    for (label, shown, byte, len) in [
        ("shown text of 20: ", true, b'A', 20),
        ("shown text of 21: ", true, b'A', 21),
        ("shown byte 31: ", true, 31, 3),
        ("shown byte 34: ", true, 34, 3),
        ("byte 34, weight shown: ", false, 34, 3),
    ] {
        try_state(rt, label, displayed(shown, byte, len))?;
    }
    Ok(())
}

fn waits(rt: &impl Print) -> io::Result<()> {
    for (label, state) in [
        ("S waiting, 2 counted: ", waited(Some(Pending::Weigh), 2)),
        ("S waiting, 3 counted: ", waited(Some(Pending::Weigh), 3)),
        ("T waiting, 4 counted: ", waited(Some(Pending::Tare), 4)),
        ("none waiting, 3 counted: ", waited(None, 3)),
        ("repeating, a sample: ", repeated(true)),
        ("repeating, no sample: ", repeated(false)),
    ] {
        try_state(rt, label, state)?;
    }
    Ok(())
}

// That SR runs beside SIR cannot be built, since the mode is one of the two, nor a set threshold of 0, which is none set.
fn changes(rt: &impl Print) -> io::Result<()> {
    for (label, sampled, last, threshold) in [
        ("SR running, a sample: ", true, 0, 0),
        ("SR running, no sample: ", false, 0, 0),
        ("SR running, last net 220000000: ", true, 220_000_000, 0),
        ("SR running, last net 220000001: ", true, 220_000_001, 0),
        ("SR running, last net -221000000: ", true, -221_000_000, 0),
        ("SR running, last net -221000001: ", true, -221_000_001, 0),
        ("SR running, threshold 220000000: ", true, 0, 220_000_000),
        ("SR running, threshold 220000001: ", true, 0, 220_000_001),
    ] {
        try_state(rt, label, changing(sampled, last, threshold))?;
    }
    Ok(())
}

// What SR keeps counts while it runs, and its threshold also while it waits.
fn change_waits(rt: &impl Print) -> io::Result<()> {
    for (label, state) in [
        (
            "SR waiting, threshold 220000000: ",
            change_waited(220_000_000, 0),
        ),
        (
            "SR waiting, threshold 220000001: ",
            change_waited(220_000_001, 0),
        ),
        ("SR waiting, no sample, 2 counted: ", change_waited(0, 2)),
        ("SR waiting, no sample, 3 counted: ", change_waited(0, 3)),
        (
            "SR off, last net and threshold 220000001 left behind: ",
            left_behind(220_000_001, 220_000_001),
        ),
    ] {
        try_state(rt, label, state)?;
    }
    Ok(())
}

fn samples(rt: &impl Print) -> io::Result<()> {
    for (label, state, room) in [
        ("none waiting, a sample, no room: ", start_state(), 0),
        (
            "S waiting, a sample, room 17: ",
            waited(Some(Pending::Weigh), 2),
            17,
        ),
        (
            "S waiting, a sample, room 18: ",
            waited(Some(Pending::Weigh), 2),
            18,
        ),
        (
            "S waiting, a sample, room 384: ",
            waited(Some(Pending::Weigh), 2),
            384,
        ),
        (
            "S waiting, 3 counted, a sample, no room: ",
            waited(Some(Pending::Weigh), 3),
            0,
        ),
        ("repeating, a second sample, room 17: ", repeated(true), 17),
        ("repeating, a second sample, room 18: ", repeated(true), 18),
    ] {
        try_sample(rt, label, state, room)?;
    }
    Ok(())
}

// Without a set threshold a net has to move by 30 display steps, 3000 micrograms.
fn changed_samples(rt: &impl Print) -> io::Result<()> {
    for (label, last, room) in [
        (
            "SR running, a sample 3000 from the last net, room 17: ",
            3_000,
            17,
        ),
        (
            "SR running, a sample 3000 from the last net, room 18: ",
            3_000,
            18,
        ),
        (
            "SR running, a sample 2999 from the last net, no room: ",
            2_999,
            0,
        ),
    ] {
        try_sample(rt, label, changing(true, last, 0), room)?;
    }
    Ok(())
}

fn orders(rt: &impl Print) -> io::Result<()> {
    let refused = Profile {
        capacity: 0,
        ..profile_a()
    };
    try_room(rt, "power on, room 15: ", profile_a(), start_state(), 15)?;
    try_room(rt, "power on, room 16: ", profile_a(), start_state(), 16)?;
    try_room(
        rt,
        "power on, profile refused, no room: ",
        refused,
        start_state(),
        0,
    )?;
    try_room(
        rt,
        "power on, earlier state refused: ",
        profile_a(),
        held(65),
        16,
    )
}

fn switch_on(rt: &impl Print, label: &str, profile: Profile) -> io::Result<()> {
    try_room(rt, label, profile, start_state(), 16)
}

// A profile is tested in all nine units; g is in force. Of profile A's, mg is the first whose nets are too wide.
fn profiles_of_units(rt: &impl Print) -> io::Result<()> {
    switch_on(rt, "power on, capacity 998999994: ", bearing(998_999_994))?;
    switch_on(rt, "power on, capacity 998999995: ", bearing(998_999_995))?;
    for (label, place, decimals) in [
        ("power on, g with 7 decimals: ", 0, 7),
        ("power on, mg with 4 decimals: ", 1, 4),
        ("power on, ct with 6 decimals: ", 2, 6),
        ("power on, oz with 7 decimals: ", 3, 7),
        ("power on, ozt with 7 decimals: ", 4, 7),
        ("power on, GN with 5 decimals: ", 5, 5),
        ("power on, GN with 4 decimals: ", 5, 4),
        ("power on, dwt with 7 decimals: ", 6, 7),
        ("power on, kg with 7 decimals: ", 7, 7),
        ("power on, lb with 7 decimals: ", 8, 7),
    ] {
        switch_on(rt, label, showing(place, decimals))?;
    }
    Ok(())
}

// The limit of the fine range, two decimals with a coarse range and one without, and nets that fit fine and not coarse.
fn profiles_of_ranges(rt: &impl Print) -> io::Result<()> {
    for (label, profile) in [
        ("power on, fine 0: ", ranged(220_000_000, 0)),
        (
            "power on, fine 219999999: ",
            ranged(220_000_000, 219_999_999),
        ),
        (
            "power on, fine 220000001: ",
            ranged(220_000_000, 220_000_001),
        ),
        (
            "power on, fine 4294967295: ",
            ranged(220_000_000, 4_294_967_295),
        ),
        (
            "power on, fine 219999999, kg with 2 decimals: ",
            showing_ranged(7, 2, 219_999_999),
        ),
        (
            "power on, fine 219999999, kg with 1 decimal: ",
            showing_ranged(7, 1, 219_999_999),
        ),
        (
            "power on, fine 220000000, kg with 1 decimal: ",
            showing(7, 1),
        ),
        (
            "power on, fine 0, GN with 5 decimals: ",
            showing_ranged(5, 5, 0),
        ),
        (
            "power on, fine 0, capacity 998999949: ",
            ranged(998_999_949, 0),
        ),
        (
            "power on, fine 0, capacity 998999950: ",
            ranged(998_999_950, 0),
        ),
        (
            "power on, fine 998999949, capacity 998999950: ",
            ranged(998_999_950, 998_999_949),
        ),
    ] {
        switch_on(rt, label, profile)?;
    }
    Ok(())
}

fn units_not_in_force(rt: &impl Print) -> io::Result<()> {
    for (label, place, decimals, unit) in [
        (
            "1 byte, GN with 5 decimals, g in force: ",
            5,
            5,
            WeightUnit::G,
        ),
        (
            "1 byte, GN with 5 decimals, GN in force: ",
            5,
            5,
            WeightUnit::Gn,
        ),
        (
            "1 byte, GN with 5 decimals, lb in force: ",
            5,
            5,
            WeightUnit::Lb,
        ),
        (
            "1 byte, lb with 6 decimals, kg in force: ",
            8,
            6,
            WeightUnit::Kg,
        ),
        (
            "1 byte, lb with 7 decimals, kg in force: ",
            8,
            7,
            WeightUnit::Kg,
        ),
    ] {
        try_lengths(rt, label, showing(place, decimals), in_unit(unit), 1, 1)?;
    }
    Ok(())
}

// First that applies: profile, state, lengths.
fn refused_buffers(rt: &impl Print) -> io::Result<()> {
    let refused = Profile {
        capacity: 0,
        ..profile_a()
    };
    try_lengths(
        rt,
        "1 byte, profile refused: ",
        refused,
        start_state(),
        1,
        1,
    )?;
    try_lengths(
        rt,
        "1 byte and no mark, profile and state refused: ",
        refused,
        held(65),
        1,
        0,
    )?;
    try_lengths(rt, "1 byte, state refused: ", profile_a(), held(65), 1, 1)?;
    try_lengths(
        rt,
        "1 byte and no mark, state refused: ",
        profile_a(),
        held(65),
        1,
        0,
    )?;
    try_lengths(
        rt,
        "4097 bytes, state refused: ",
        profile_a(),
        held(65),
        4097,
        4097,
    )
}

fn lengths(rt: &impl Print) -> io::Result<()> {
    for (label, count, marked) in [
        ("1 byte and no mark: ", 1, 0),
        ("no byte and 1 mark: ", 0, 1),
        ("4097 bytes: ", 4097, 4097),
        ("4096 bytes and 4097 marks: ", 4096, 4097),
        ("no byte, no room: ", 0, 0),
        ("4096 bytes, no room: ", 4096, 4096),
    ] {
        try_lengths(rt, label, profile_a(), start_state(), count, marked)?;
    }
    Ok(())
}

// Without a sample SI is answered by five bytes, M21 always by eleven, I0 by 258.
fn rooms(rt: &impl Print) -> io::Result<()> {
    for (label, text, room) in [
        ("SI twice, room 4: ", "SI\r\nSI\r\n", 4),
        ("SI twice, room 5: ", "SI\r\nSI\r\n", 5),
        ("SI twice, room 9: ", "SI\r\nSI\r\n", 9),
        ("SI twice, room 10: ", "SI\r\nSI\r\n", 10),
        ("SI twice, room 384: ", "SI\r\nSI\r\n", 384),
        ("M21, room 10: ", "M21\r\n", 10),
        ("M21, room 11: ", "M21\r\n", 11),
        ("I0, room 257: ", "I0\r\n", 257),
        ("I0, room 258: ", "I0\r\n", 258),
    ] {
        try_text(rt, label, text.as_bytes(), room)?;
    }
    Ok(())
}

fn main(rt: HostRuntime) -> io::Result<()> {
    weighings(&rt)?;
    units(&rt)?;
    lines(&rt)?;
    displays(&rt)?;
    waits(&rt)?;
    changes(&rt)?;
    change_waits(&rt)?;
    samples(&rt)?;
    changed_samples(&rt)?;
    orders(&rt)?;
    profiles_of_units(&rt)?;
    profiles_of_ranges(&rt)?;
    units_not_in_force(&rt)?;
    refused_buffers(&rt)?;
    lengths(&rt)?;
    rooms(&rt)
}
