// The C interface (include/g719.h): each public call under a C name, with the whole promise of the call that it hands on to.

#![tactic(auto)]

ghost use Rattle.std.specs.Prelude.{◌≡◌, length};
ghost use Rattle.prefix.specs.Prefix.{prefix_of, byte_of};
ghost use Rattle.norms.specs.Answers.{choice_of as flag_n};
ghost use Rattle.legal.specs.Answers.{legalised};
ghost use Rattle.weights.specs.Weights.{weighed};
ghost use Rattle.allotment.specs.Allotment.{shares_of};
ghost use Rattle.points.specs.Answers.{point_of, index_of};
ghost use Rattle.codebook.specs.Codebook.{row_point, row_index};
ghost use Rattle.frame.specs.Answers.{read_answer, reading_of, codes_after, tail_after};
ghost use Rattle.layout.specs.Parts.{layout_of};
ghost use Rattle.writer.specs.Writes.{write_reply, writing_of, out_after};
ghost use Rattle.writer.specs.Empty.{empty_reply, empty_after};
ghost use Rattle.choice.specs.Choice.{choice_of as flag_c};
ghost use Rattle.recording.specs.Walk.{check_of};
ghost use Rattle.channels.specs.Copies.{check_answer, extract_answer, extract_after};
ghost use Rattle.joining.specs.Joining.{join_answer, join_after};
ghost use Rattle.boundary.specs.PrefixStructs.{prefix_numbers, byte_numbers};
ghost use Rattle.boundary.specs.Flags.{flag_in, record_in, reading_out, choice_out, block_out, records_in};
ghost use Rattle.block_reader.specs.Reading as block_read;
ghost use Rattle.block_writer.specs.Writing as block_written;

use allotment::Shares;
use boundary::{Block, Byte, Choice, Prefix, Reading, Record, Records, flag_in};
use channels::Copied;
use codebook::Row;
use layout::Parts;
use legal::Legal;
use points::{Index, Point};
use prefix::Mode;
use recording::answer::Check;
use weights::Weights;
use writer::Writing;

#[unsafe(no_mangle)]
pub extern "C" fn g719_read_prefix(src: &[u8]) -> Prefix
    ensures { result ≡ prefix_numbers (prefix_of src.now) }
{
    prefix::read_prefix(src).into()
}

#[unsafe(no_mangle)]
pub extern "C" fn g719_write_prefix(mode: u8) -> Byte
    ensures { result ≡ byte_numbers (byte_of mode) }
{
    prefix::write_prefix(Mode(mode)).into()
}

#[unsafe(no_mangle)]
pub extern "C" fn g719_read(src: &[u8], codes: &mut [u16], tail: &mut [u8]) -> Reading
    ensures { (result ≡ reading_out (reading_of (read_answer src.now (length codes.old) (length tail.old))))
        × (codes.new ≡ codes_after codes.old (read_answer src.now (length codes.old) (length tail.old)))
        × (tail.new ≡ tail_after tail.old (read_answer src.now (length codes.old) (length tail.old))) }
{
    frame::read(src, codes, tail).into()
}

#[unsafe(no_mangle)]
pub extern "C" fn g719_write(record: Record, codes: &[u16], tail: &[u8], out: &mut [u8]) -> Writing
    ensures { (result ≡ writing_of (write_reply (record_in «record») codes.now tail.now (length out.old)) «record».mode)
        × (out.new ≡ out_after (write_reply (record_in «record») codes.now tail.now (length out.old)) (record_in «record») codes.now tail.now out.old) }
{
    writer::write(record.into(), codes, tail, out)
}

#[unsafe(no_mangle)]
pub extern "C" fn g719_layout(record: Record, codes: &[u16]) -> Parts
    ensures { result ≡ layout_of (record_in «record») codes.now }
{
    layout::layout(record.into(), codes)
}

#[unsafe(no_mangle)]
pub extern "C" fn g719_write_empty(out: &mut [u8]) -> Writing
    ensures { (result ≡ empty_reply (length out.old)) × (out.new ≡ empty_after out.old) }
{
    writer::write_empty(out)
}

#[unsafe(no_mangle)]
pub extern "C" fn g719_choose_flag_n(transient: u8, norms: &[u8; 44]) -> Choice
    ensures { result ≡ choice_out (flag_n (flag_in transient) norms.now) }
{
    norms::choose_flag_n(flag_in(transient), *norms).into()
}

#[unsafe(no_mangle)]
pub extern "C" fn g719_choose_flag_c(record: Record, codes: &[u16]) -> Choice
    ensures { result ≡ choice_out (flag_c (record_in «record») codes.now) }
{
    choice::choose_flag_c(record.into(), codes).into()
}

#[unsafe(no_mangle)]
pub extern "C" fn g719_legalise(transient: u8, norms: &[u8; 44]) -> Legal
    ensures { result ≡ legalised (flag_in transient) norms.now }
{
    legal::legalise(flag_in(transient), *norms)
}

#[unsafe(no_mangle)]
pub extern "C" fn g719_weigh(transient: u8, norms: &[u8; 44]) -> Weights
    ensures { result ≡ weighed (flag_in transient) norms.now }
{
    weights::weigh(flag_in(transient), *norms)
}

#[unsafe(no_mangle)]
pub extern "C" fn g719_allot(transient: u8, wide: u8, norms: &[u8; 44], budget: u32) -> Shares
    ensures { result ≡ shares_of (flag_in transient) (flag_in wide) norms.now budget }
{
    allotment::allot(flag_in(transient), flag_in(wide), *norms, budget)
}

#[unsafe(no_mangle)]
pub extern "C" fn g719_lattice_point(rate: u8, index: &[u16; 8]) -> Point
    ensures { result ≡ point_of rate index.now }
{
    points::lattice_point(rate, index)
}

#[unsafe(no_mangle)]
pub extern "C" fn g719_codebook_point(rate: u8, index: u16) -> Point
    ensures { result ≡ row_point rate index }
{
    codebook::codebook_point(rate, index)
}

#[unsafe(no_mangle)]
pub extern "C" fn g719_lattice_index(rate: u8, point: &[i16; 8]) -> Index
    ensures { result ≡ index_of rate point.now }
{
    points::lattice_index(rate, point)
}

#[unsafe(no_mangle)]
pub extern "C" fn g719_codebook_index(rate: u8, point: &[i16; 8]) -> Row
    ensures { result ≡ row_index rate point.now }
{
    row_search::codebook_index(rate, point)
}

#[unsafe(no_mangle)]
pub extern "C" fn g719_check_file(src: &[u8], booking: u32) -> Check
    ensures { result ≡ check_of src.now booking }
{
    recording::check(src, booking)
}

#[unsafe(no_mangle)]
pub extern "C" fn g719_read_block(
    src: &[u8],
    channels: u8,
    codes: &mut [u16],
    tails: &mut [u8],
) -> Block
    ensures { (result ≡ block_out (block_read.block_answer (block_read.block_reply src.now channels (length codes.old) (length tails.old)) src.now channels))
        × (codes.new ≡ block_read.codes_after (block_read.block_reply src.now channels (length codes.old) (length tails.old)) src.now channels codes.old)
        × (tails.new ≡ block_read.tails_after (block_read.block_reply src.now channels (length codes.old) (length tails.old)) src.now channels tails.old) }
{
    block_reader::read_block(src, channels, codes, tails).into()
}

#[unsafe(no_mangle)]
pub extern "C" fn g719_write_block(
    records: Records,
    channels: u8,
    codes: &[u16],
    tails: &[u8],
    out: &mut [u8],
) -> Writing
    ensures { (result ≡ block_written.block_answer (block_written.block_reply (records_in records) channels codes.now tails.now (length out.old)) (records_in records) channels codes.now tails.now)
        × (out.new ≡ block_written.out_after (block_written.block_reply (records_in records) channels codes.now tails.now (length out.old)) (records_in records) channels codes.now tails.now out.old) }
{
    block_writer::write_block(records.into(), channels, codes, tails, out)
}

#[unsafe(no_mangle)]
pub extern "C" fn g719_check_blocks(src: &[u8], channels: u8, booking: u32) -> Check
    ensures { result ≡ check_answer src.now channels booking }
{
    channels::check_blocks(src, channels, booking)
}

#[unsafe(no_mangle)]
pub extern "C" fn g719_extract(src: &[u8], channels: u8, channel: u8, out: &mut [u8]) -> Copied
    ensures { (result ≡ extract_answer src.now channels channel (length out.old))
        × (out.new ≡ extract_after src.now channels channel out.old) }
{
    channels::extract(src, channels, channel, out)
}

#[unsafe(no_mangle)]
pub extern "C" fn g719_join(src: &[u8], lengths: &[u32], out: &mut [u8]) -> Copied
    ensures { (result ≡ join_answer src.now lengths.now (length out.old))
        × (out.new ≡ join_after src.now lengths.now out.old) }
{
    joining::join(src, lengths, out)
}
