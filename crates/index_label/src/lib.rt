// A header's label by an index, from its bytes and with no packet made, where nothing refuses the header: else it is untold.
#![tactic(auto)]

ghost use Rattle.std.specs.Prelude.{◌≡◌, true, ◌≤◌, length, get_or};
ghost use Rattle.packet.specs.declared.Packet.{Packet as PacketOf};
ghost use Rattle.tlp_kinds.specs.Kinds.{is_memory, is_io, is_config, is_completion};
ghost use Rattle.route_answer.specs.Routing.{answer};
ghost use Rattle.index_search.specs.Search.{outcome_by};
ghost use Rattle.trace_label.specs.Label.{owner_text};
ghost use Rattle.trace_label.specs.Word.{way_text, Told};
ghost use Rattle.index_label.specs.Found.{label_found};

use packet::Packet;
use trace_label::{Label, untold};

pub fn label_by_index(header: &[u8], index: &[u8]) -> Label
    ensures { Told result (label_found index.now header.now) }
{
    if header.len() < 12 {
        return untold();
    }
    let b = header[0];
    if tlp_kinds::is_memory(b) {
        return label_memory(header, index);
    }
    if tlp_kinds::is_io(b) {
        return label_io(header, index);
    }
    if tlp_kinds::is_config(b) {
        return label_config(header, index);
    }
    if tlp_kinds::is_completion(b) {
        return label_completion(header, index);
    }
    untold()
}

fn label_memory(header: &[u8], index: &[u8]) -> Label
    requires { (12 ≤ length header.now) × (is_memory (get_or header.now 0 0) ≡ true) }
    ensures { Told result (label_found index.now header.now) }
{
    let b = header[0];
    let k = tlp_kinds::memory_kind(b);
    let form = tlp_kinds::memory_form(b);
    if header.len() < 4 * (form as usize) {
        return untold();
    }
    let h = tlp_fields::request_head_at(form, header);
    let e = tlp_fields::enables_at(header);
    let a = tlp_fields::address_at(form, header);
    if tlp_fields::unnamed(packet::is_write(k), header) {
        return untold();
    }
    if packet::memory_rules(h, e, a) != 0 {
        return untold();
    }
    let name = trace_label::name_of_memory(k);
    if index_layout::MEMORY_END <= a {
        return owned_by(name, 0);
    }
    owned_by(
        name,
        index_find::word_for(index, index_layout::segment_of(a), a),
    )
}

fn label_io(header: &[u8], index: &[u8]) -> Label
    requires { (12 ≤ length header.now) × (is_io (get_or header.now 0 0) ≡ true) }
    ensures { Told result (label_found index.now header.now) }
{
    let k = tlp_kinds::io_kind(header[0]);
    let h = tlp_fields::request_head_at(3, header);
    let e = tlp_fields::enables_at(header);
    let a = tlp_fields::address_at(3, header);
    if tlp_fields::unnamed(false, header) {
        return untold();
    }
    if packet::io_rules(h, e, a) != 0 {
        return untold();
    }
    let name = trace_label::name_of_io(k);
    if index_layout::IO_SIZE <= a {
        return owned_by(name, 0);
    }
    owned_by(
        name,
        index_find::word_for(index, index_layout::IO_SEGMENT, index_layout::IO_BASE + a),
    )
}

// 42 before the search, for which the root bus is in the index.
fn label_config(header: &[u8], index: &[u8]) -> Label
    requires { (12 ≤ length header.now) × (is_config (get_or header.now 0 0) ≡ true) }
    ensures { Told result (label_found index.now header.now) }
{
    let k = tlp_kinds::config_kind(header[0]);
    let h = tlp_fields::request_head_at(3, header);
    let e = tlp_fields::enables_at(header);
    let t = tlp_fields::target_at(header);
    if tlp_fields::unnamed(false, header) | tlp_fields::unnamed_target(header) {
        return untold();
    }
    if packet::config_rules(h, e) != 0 {
        return untold();
    }
    if index.len() <= index_layout::ROOT {
        return untold();
    }
    if route_arrival::type_wrong(Packet::Config(k, h, e, t), index[index_layout::ROOT]) {
        return untold();
    }
    let name = trace_label::name_of_config(k);
    owned_by(
        name,
        index_find::word_for(
            index,
            index_layout::ID_SEGMENT,
            index_layout::ID_BASE + (t.id as u64),
        ),
    )
}

// By its requester.
fn label_completion(header: &[u8], index: &[u8]) -> Label
    requires { (12 ≤ length header.now) × (is_completion (get_or header.now 0 0) ≡ true) }
    ensures { Told result (label_found index.now header.now) }
{
    let k = tlp_kinds::completion_kind(header[0]);
    let h = tlp_fields::completion_head_at(k, 3, header);
    let o = tlp_fields::outcome_at(header);
    if tlp_fields::unnamed(false, header) | tlp_fields::unnamed_lower(header) {
        return untold();
    }
    if packet::completion_rules(k, h, o) != 0 {
        return untold();
    }
    let name = trace_label::name_of_completion(k);
    owned_by(
        name,
        index_find::word_for(
            index,
            index_layout::ID_SEGMENT,
            index_layout::ID_BASE + (h.requester as u64),
        ),
    )
}

// By a slot's word, whatever the packet: its record, or nobody's.
fn owned_by(name: u64, word: u64) -> Label
    ensures { (result.name ≡ name) × ((p : PacketOf) → way_text result.way result.number ≡ owner_text (answer p (outcome_by word))) }
{
    let record = index_layout::record_in(word);
    if record == 0 {
        return Label {
            name,
            way: trace_label::REFUSED,
            number: 40,
        };
    }
    Label {
        name,
        way: trace_label::OWNER,
        number: record as u16,
    }
}
