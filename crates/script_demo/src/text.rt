//! The lines of a demo's script.

ghost use Rattle.std.specs.Prelude.{◌≡◌, ◌+◌, ◌-◌, ◌*◌, ◌≤◌, ◌++◌, length, decimal, IfOk};
ghost use Rattle.script.specs.Appends.{Appends, AppendsFew};
ghost use Rattle.script_demo.specs.Demo.{write_line, read_line, writes_from, reads_from, making, lane_a, lane_b, growing, demo_text};

use std::alloc::{AllocError, Global};

fn push_words(text: &mut Vec<u8>, words: &str) -> Result<(), AllocError>
    ensures appended { Appends text.old text.new result words.now }
    ensures short { AppendsFew (length words.now) text.old text.new result }
{
    text.extend_from_slice(words.as_bytes())
}

fn push_number(text: &mut Vec<u8>, number: u64) -> Result<(), AllocError>
    ensures appended { Appends text.old text.new result (decimal number) }
    ensures short { AppendsFew 20 text.old text.new result }
{
    let mut buffer = itoa::Buffer::new();
    text.extend_from_slice(buffer.format(number).as_bytes())
}

// Words and a number.
fn push_counted(text: &mut Vec<u8>, words: &str, number: u64) -> Result<(), AllocError>
    ensures appended { Appends text.old text.new result (words.now ++ decimal number) }
    ensures short { AppendsFew (length words.now + 20) text.old text.new result }
{
    push_words(text, words)?;
    push_number(text, number)
}

fn push_write(text: &mut Vec<u8>, at: u64, seed: u64) -> Result<(), AllocError>
    ensures appended { Appends text.old text.new result (write_line at seed) }
    ensures short { AppendsFew 51 text.old text.new result }
{
    push_counted(text, "write ", at)?;
    push_counted(text, " 96 ", seed)?;
    push_words(text, "\n")
}

fn push_read(text: &mut Vec<u8>, at: u64) -> Result<(), AllocError>
    ensures appended { Appends text.old text.new result (read_line at) }
    ensures short { AppendsFew 29 text.old text.new result }
{
    push_counted(text, "read ", at)?;
    push_words(text, " 96\n")
}

fn push_writes(text: &mut Vec<u8>, count: u64) -> Result<(), AllocError>
    requires { count ≤ 128 }
    ensures appended { Appends text.old text.new result (writes_from 0 count) }
    ensures short { AppendsFew (51 * count) text.old text.new result }
{
    for j in 0..count {
        push_write(text, 96 * j, j + 1)?;
    }
    Ok(())
}

fn push_reads(text: &mut Vec<u8>, count: u64) -> Result<(), AllocError>
    requires { count ≤ 128 }
    ensures appended { Appends text.old text.new result (reads_from 0 count) }
    ensures short { AppendsFew (29 * count) text.old text.new result }
{
    for j in 0..count {
        push_read(text, 96 * j)?;
    }
    Ok(())
}

fn push_making(text: &mut Vec<u8>, size: u64) -> Result<(), AllocError>
    ensures appended { Appends text.old text.new result (making size) }
    ensures short { AppendsFew 110 text.old text.new result }
{
    push_words(text, "create 6ba7b810-9dad-11d1-80b4-00c04fd430c8")?;
    push_counted(text, " level=5 disks=4 chunk=8 size=", size)?;
    push_words(text, " offset=16\nadd 4\n")
}

fn push_lane_a(text: &mut Vec<u8>) -> Result<(), AllocError>
    ensures appended { Appends text.old text.new result lane_a }
    ensures short { AppendsFew 60 text.old text.new result }
{
    push_words(text, "a: write 0 96 1001\na: read 0 96\n")?;
    push_words(text, "a: write 0 48 1002\na: flush\n")
}

fn push_lane_b(text: &mut Vec<u8>, at: u64) -> Result<(), AllocError>
    ensures appended { Appends text.old text.new result (lane_b at) }
    ensures short { AppendsFew 80 text.old text.new result }
{
    push_counted(text, "b: write ", at)?;
    push_counted(text, " 96 2001\nb: read ", at)?;
    push_words(text, " 96\n")
}

#[tactic(auto, unfolding(crate::specs::Demo::growing))]
fn push_growing(text: &mut Vec<u8>, at: u64) -> Result<(), AllocError>
    ensures appended { Appends text.old text.new result (growing at) }
    ensures short { AppendsFew 200 text.old text.new result }
{
    push_words(text, "flush\ngrow disks=5\ntogether\n")?;
    push_lane_a(text)?;
    push_lane_b(text, at)?;
    push_words(text, "end\nwait\nstop\nassemble\n")
}

// The lines of a demo of this size.
#[tactic(auto, unfolding(crate::specs::Demo::demo_text))]
fn push_demo(text: &mut Vec<u8>, n: u64) -> Result<(), AllocError>
    requires some { 1 ≤ n }
    requires few { n ≤ 64 }
    ensures appended { Appends text.old text.new result (demo_text n) }
    ensures short { AppendsFew (400 + 160 * n) text.old text.new result }
{
    push_making(text, 64 * n)?;
    push_writes(text, 2 * n)?;
    push_growing(text, 192 * n - 96)?;
    push_reads(text, 2 * n)?;
    push_words(text, "stop\n")
}

/// The text of the script that a demo of size `n`, from 1 to 64, performs: bytes, each line with the end of a line behind it. `Err` is want
/// of memory.
pub fn demo_text(alloc: Global, n: u64) -> Result<Vec<u8>, AllocError>
    requires some { 1 ≤ n }
    requires few { n ≤ 64 }
    ensures text { IfOk result (λ text. text.items ≡ demo_text n) }
    ensures few { IfOk result (λ text. length text.items ≤ 16384) }
{
    let mut text = Vec::new(alloc);
    push_demo(&mut text, n)?;
    Ok(text)
}
