// Frames read and written.
use notation::{Ascii, Points, board_of, number, refused};
use play_cases::three_rings;
use std::io;

// The position of a frame: its rings and its two sets.
fn read_frame(rt: &impl Print, frame: &[u8]) -> io::Result<()> {
    print!(rt; "read frame {}:", Ascii(frame))?;
    match frame_calls::read_frame(frame) {
        Ok(position) => {
            number(rt, position.rings as u64)?;
            number(rt, position.mover as u64)?;
            number(rt, position.opponent as u64)?;
        }
        Err(refusal) => refused(rt, refusal.number())?,
    }
    println!(rt)
}

fn write_over(rt: &impl Print, rings: u8, board: &[u8], target: &mut [u8]) -> io::Result<()> {
    print!(rt; "write frame {rings} {}:", Points(board))?;
    match frame_calls::write_frame(rings, board, target) {
        Ok(n) => number(rt, n as u64)?,
        Err(refusal) => refused(rt, refusal.number())?,
    }
    println!(rt; " {}", Ascii(target))
}

// A board as a frame, and what a target of dots then holds.
fn write_frame(
    rt: &impl Print,
    rings: u8,
    length: usize,
    digits: u64,
    room: usize,
) -> io::Result<()> {
    let board = board_of(digits);
    let mut target = [b'.'; 16];
    write_over(
        rt,
        rings,
        &board[..length.min(24)],
        &mut target[..room.min(16)],
    )
}

// Each refusal of a frame.
fn refused_frames(rt: &impl Print) -> io::Result<()> {
    read_frame(rt, b"")?;
    read_frame(rt, b"0185266")?;
    read_frame(rt, b"01852G")?;
    read_frame(rt, b"01852A")?;
    read_frame(rt, b"018526 ")?;
    read_frame(
        rt,
        b"0000000000000000000000000000000000000000000000000000000000000000",
    )?;
    read_frame(
        rt,
        b"000000000000000000000000000000000000000000000000000000000000000000",
    )?;
    read_frame(rt, b"008526")?;
    read_frame(rt, b"048526")?;
    read_frame(rt, b"0185")?;
    read_frame(rt, b"01852600")?;
    read_frame(rt, b"018527")?;
    read_frame(rt, b"018520")?;
    read_frame(rt, b"0211160004")?;
    read_frame(rt, b"03840084009042000000")
}

// Boards written, one that no game reaches among them: places beyond the frame and a refused target keep their dots.
fn written(rt: &impl Print) -> io::Result<()> {
    write_frame(rt, 1, 8, 02122011, 8)?;
    write_frame(rt, 1, 8, 11120202, 6)?;
    write_frame(rt, 1, 8, 11120202, 5)?;
    write_frame(rt, 2, 16, 0001001002220101, 10)?;
    write_over(rt, 3, &three_rings(), &mut [b'.'; 16])?;
    write_frame(rt, 3, 24, 222222222111, 16)?;
    write_frame(rt, 0, 8, 02122011, 6)?;
    write_frame(rt, 1, 7, 2122011, 6)?;
    write_frame(rt, 1, 8, 32122011, 6)?;
    write_frame(rt, 1, 8, 00122011, 2)
}

// First document 01's two frames, one of two and one of three rings, and one that no game reaches.
pub fn run(rt: &impl Print) -> io::Result<()> {
    read_frame(rt, b"018526")?;
    read_frame(rt, b"012256")?;
    read_frame(rt, b"02112a0401")?;
    read_frame(rt, b"03840084009042")?;
    read_frame(rt, b"0395aaaa000000")?;
    refused_frames(rt)?;
    written(rt)
}
