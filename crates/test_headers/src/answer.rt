// The line that answers a header: `refused N`, or the packet field by field and then `same` where it
// is written back to the header's own bytes, `differs` where not.
use packet::Packet;
use text::{front, put_text};
use tlp::{Reading, Writing};

// Whether the answer could be written. The longest has 131 bytes.
pub fn print(rt: HostRuntime, header: &[u8]) -> bool {
    let mut line = [0u8; 256];
    let n = put_answer(&mut line, header);
    console::print(rt, front(&line, n))
}

fn put_answer(out: &mut [u8], header: &[u8]) -> usize {
    match tlp::read(header) {
        Reading::Refused(n) => text::put_refusal(out, 0, n),
        Reading::Accepted(p) => {
            let at = packet_text::put_packet(out, 0, p);
            if is_written_back(p, header) {
                return put_text(out, at, b" same\n");
            }
            put_text(out, at, b" differs\n")
        }
    }
}

fn is_written_back(p: Packet, header: &[u8]) -> bool {
    let mut room = [0u8; 16];
    match tlp::write(p, &mut room) {
        Writing::Written(n) => check::same(front(&room, n), front(header, n)),
        Writing::Refused(_) => false,
    }
}
