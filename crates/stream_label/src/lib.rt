// The labeller on the standard streams: the 30 bytes of a host record, a two-byte length, a sheet of so many bytes, then a trace to the end
// of input. The annotator's lines, for a sheet that is accepted for the host: each header is looked up in an index, which is built once.
// specs/Program says what is printed. It stops where the annotator does.
#![tactic(auto)]

ghost use Rattle.stream_label.specs.Indexed.{Indexed};

use stream_trace::Stop;
use trace_engine::Engine;
use trace_line::Finder;

// The index of a full sheet, 1,024 bytes and 256 a function: 132,096 for 512 functions, which E4's 64 KiB cannot hold, so this program
// stands beside the annotator. Its memory is fixed too: the index, a full sheet of 47,105 bytes, a piece of 16,384 and its lines (327,720),
// the host record, 8,192 bytes in which the sheet's check marks IDs, 9,216 for the tables by bus of audit and build, and under 1,000 for
// ranges and lines under way: less than 546,000 bytes.
pub const INDEX: usize = index_layout::LEAST + index_layout::EACH * records::MOST_FUNCTIONS;

// A record takes two bytes at least, so the lines of any piece fit: none is counted before it is labelled.
pub const PIECE: usize = 16384;

pub const LINES: usize = (PIECE / 2 + 1) * trace_line::LONGEST;

pub fn label(
    rt: HostRuntime,
    sheet: &mut [u8; sheet::FULL],
    index: &mut [u8; INDEX],
    piece: &mut [u8; PIECE],
    lines: &mut [u8; LINES],
) {
    let mut host = [0u8; board_record::HOST_LENGTH];
    match index_input(rt, &mut host, sheet, index) {
        Ok(left) => {
            let engine = Engine::Owner(Finder::Index);
            stream_trace::read_trace(rt, left, engine, index, piece, lines);
        }
        Err(stop) => stream_trace::print_stop(rt, stop, lines),
    }
}

// A host record and a sheet, and the sheet's index: the pieces that may still come. The host record's own check comes before anything of
// the sheet.
fn index_input(
    rt: HostRuntime,
    host: &mut [u8; board_record::HOST_LENGTH],
    sheet: &mut [u8; sheet::FULL],
    index: &mut [u8; INDEX],
) -> Result<u64, Stop> {
    let left = stream_trace::fill(rt, console::PIECES, host)?;
    if board_record::host_wrong(board_record::host_of(host)) {
        return Err(Stop::Refused(26));
    }
    let (size, fewer) = stream_trace::read_sheet(rt, left, sheet)?;
    let number = index_sheet(host, text::front(sheet, size), index);
    if number != 0 {
        return Err(Stop::Refused(number));
    }
    Ok(fewer)
}

// The audit's number; where it is 0, the sheet's index. There is room for any, so no build gives 11.
fn index_sheet(host: &[u8], sheet: &[u8], index: &mut [u8; INDEX]) -> u8
    ensures { Indexed host.now sheet.now result index.new }
{
    index_build::build(host, sheet, index)
}
