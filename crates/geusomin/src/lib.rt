// The C interface, one function a call; include/geusomin.h declares them. To C a slice is a pointer and a length.
#![tactic(auto)]

ghost use Rattle.std.specs.Prelude.{◌≡◌, length};
ghost use Rattle.model.specs.Answer.{writes, said, outcome, after};
ghost use Rattle.model.specs.Calls.{read_output, kind_output, canonical_output, signature_output, kind_text_output, name_output};
ghost use Rattle.model.specs.Full.{full_output};
ghost use Rattle.model.specs.Message.{message_output};
ghost use Rattle.model.specs.Sheet.{sheet_output};
ghost use Rattle.model.specs.Find.{told, find_output};
ghost use Rattle.calldata.specs.Calls.{heads_output, check_output};
ghost use Rattle.geusomin.specs.Told.{code, worth};

use model::{Answer, Call, Refusal, Refused};

// An answer in two numbers.
fn tell(answer: Answer, value: &mut usize) -> u32
    ensures tells { result ≡ code (said answer) }
    ensures shows { value.new ≡ worth (said answer) }
{
    match answer {
        Ok(length) => {
            *value = length;
            0
        }
        Err(Refused { refusal, position }) => {
            *value = position;
            refusal.into()
        }
    }
}

#[unsafe(no_mangle)]
pub extern "C" fn geusomin_parse_declaration(
    text: &[u8],
    record: &mut [u8],
    value: &mut usize,
) -> u32
    ensures tells { result ≡ code (outcome (length «record».old) (read_output Call.General text.now)) }
    ensures shows { value.new ≡ worth (outcome (length «record».old) (read_output Call.General text.now)) }
    ensures left { «record».new ≡ after «record».old (read_output Call.General text.now) }
{
    tell(declaration::read(Call::General, text, record), value)
}

#[unsafe(no_mangle)]
pub extern "C" fn geusomin_parse_function(text: &[u8], record: &mut [u8], value: &mut usize) -> u32
    ensures tells { result ≡ code (outcome (length «record».old) (read_output Call.Function text.now)) }
    ensures shows { value.new ≡ worth (outcome (length «record».old) (read_output Call.Function text.now)) }
    ensures left { «record».new ≡ after «record».old (read_output Call.Function text.now) }
{
    tell(declaration::read(Call::Function, text, record), value)
}

#[unsafe(no_mangle)]
pub extern "C" fn geusomin_parse_constructor(
    text: &[u8],
    record: &mut [u8],
    value: &mut usize,
) -> u32
    ensures tells { result ≡ code (outcome (length «record».old) (read_output Call.Constructor text.now)) }
    ensures shows { value.new ≡ worth (outcome (length «record».old) (read_output Call.Constructor text.now)) }
    ensures left { «record».new ≡ after «record».old (read_output Call.Constructor text.now) }
{
    tell(declaration::read(Call::Constructor, text, record), value)
}

#[unsafe(no_mangle)]
pub extern "C" fn geusomin_parse_event(text: &[u8], record: &mut [u8], value: &mut usize) -> u32
    ensures tells { result ≡ code (outcome (length «record».old) (read_output Call.Event text.now)) }
    ensures shows { value.new ≡ worth (outcome (length «record».old) (read_output Call.Event text.now)) }
    ensures left { «record».new ≡ after «record».old (read_output Call.Event text.now) }
{
    tell(declaration::read(Call::Event, text, record), value)
}

#[unsafe(no_mangle)]
pub extern "C" fn geusomin_parse_error(text: &[u8], record: &mut [u8], value: &mut usize) -> u32
    ensures tells { result ≡ code (outcome (length «record».old) (read_output Call.Error text.now)) }
    ensures shows { value.new ≡ worth (outcome (length «record».old) (read_output Call.Error text.now)) }
    ensures left { «record».new ≡ after «record».old (read_output Call.Error text.now) }
{
    tell(declaration::read(Call::Error, text, record), value)
}

#[unsafe(no_mangle)]
pub extern "C" fn geusomin_parse_kind(text: &[u8], record: &mut [u8], value: &mut usize) -> u32
    ensures tells { result ≡ code (outcome (length «record».old) (kind_output text.now)) }
    ensures shows { value.new ≡ worth (outcome (length «record».old) (kind_output text.now)) }
    ensures left { «record».new ≡ after «record».old (kind_output text.now) }
{
    tell(kind_call::parse_kind(text, record), value)
}

#[unsafe(no_mangle)]
pub extern "C" fn geusomin_parse_sheet(
    text: &[u8],
    record: &mut [u8],
    value: &mut usize,
    line: &mut usize,
) -> u32
    ensures tells { result ≡ code (outcome (length «record».old) (sheet_output text.now).output) }
    ensures shows { value.new ≡ worth (outcome (length «record».old) (sheet_output text.now).output) }
    ensures left { «record».new ≡ after «record».old (sheet_output text.now).output }
    ensures lined { line.new ≡ (sheet_output text.now).line }
{
    tell(sheet::parse_sheet(text, record, line), value)
}

#[unsafe(no_mangle)]
pub extern "C" fn geusomin_find(
    sheet: &[u8],
    text: &[u8],
    place: &mut usize,
    compared: &mut usize,
) -> u32
    ensures tells { result ≡ (told (find_output sheet.now text.now)).refusal }
    ensures placed { place.new ≡ (told (find_output sheet.now text.now)).place }
    ensures counted { compared.new ≡ (told (find_output sheet.now text.now)).compared }
{
    match index::find(sheet, text) {
        Ok(found) => {
            *place = found.place;
            *compared = found.compared;
            0
        }
        Err(missing) => {
            *place = 0;
            *compared = missing.compared;
            missing.refusal.into()
        }
    }
}

#[unsafe(no_mangle)]
pub extern "C" fn geusomin_canonical(record: &[u8], text: &mut [u8], value: &mut usize) -> u32
    ensures tells { result ≡ code (outcome (length text.old) (canonical_output «record».now)) }
    ensures shows { value.new ≡ worth (outcome (length text.old) (canonical_output «record».now)) }
    ensures left { text.new ≡ after text.old (canonical_output «record».now) }
{
    tell(abi::canonical(record, text), value)
}

#[unsafe(no_mangle)]
pub extern "C" fn geusomin_signature(record: &[u8], text: &mut [u8], value: &mut usize) -> u32
    ensures tells { result ≡ code (outcome (length text.old) (signature_output «record».now)) }
    ensures shows { value.new ≡ worth (outcome (length text.old) (signature_output «record».now)) }
    ensures left { text.new ≡ after text.old (signature_output «record».now) }
{
    tell(abi::signature(record, text), value)
}

#[unsafe(no_mangle)]
pub extern "C" fn geusomin_kind_text(record: &[u8], text: &mut [u8], value: &mut usize) -> u32
    ensures tells { result ≡ code (outcome (length text.old) (kind_text_output «record».now)) }
    ensures shows { value.new ≡ worth (outcome (length text.old) (kind_text_output «record».now)) }
    ensures left { text.new ≡ after text.old (kind_text_output «record».now) }
{
    tell(abi::kind_text(record, text), value)
}

#[unsafe(no_mangle)]
pub extern "C" fn geusomin_full_text(record: &[u8], text: &mut [u8], value: &mut usize) -> u32
    ensures tells { result ≡ code (outcome (length text.old) (full_output «record».now)) }
    ensures shows { value.new ≡ worth (outcome (length text.old) (full_output «record».now)) }
    ensures left { text.new ≡ after text.old (full_output «record».now) }
{
    tell(full::full_text(record, text), value)
}

#[unsafe(no_mangle)]
pub extern "C" fn geusomin_heads(record: &[u8], out: &mut [u8], value: &mut usize) -> u32
    ensures tells { result ≡ code (outcome (length out.old) (heads_output «record».now)) }
    ensures shows { value.new ≡ worth (outcome (length out.old) (heads_output «record».now)) }
    ensures left { out.new ≡ after out.old (heads_output «record».now) }
{
    tell(calldata::heads(record, out), value)
}

#[unsafe(no_mangle)]
pub extern "C" fn geusomin_check_data(record: &[u8], data: &[u8], value: &mut usize) -> u32
    ensures tells { result ≡ code (outcome 0 (check_output «record».now «data».now)) }
    ensures shows { value.new ≡ worth (outcome 0 (check_output «record».now «data».now)) }
{
    tell(calldata::check(record, data), value)
}

#[unsafe(no_mangle)]
pub extern "C" fn geusomin_copy_name(record: &[u8], text: &mut [u8], value: &mut usize) -> u32
    ensures tells { result ≡ code (outcome (length text.old) (name_output «record».now)) }
    ensures shows { value.new ≡ worth (outcome (length text.old) (name_output «record».now)) }
    ensures left { text.new ≡ after text.old (name_output «record».now) }
{
    match abi::name(record) {
        Ok(name) => tell(layout::deliver(name, text), value),
        Err(refusal) => tell(Err(refusal.into()), value),
    }
}

#[unsafe(no_mangle)]
pub extern "C" fn geusomin_message_declaration(
    text: &[u8],
    out: &mut [u8],
    value: &mut usize,
) -> u32
    ensures tells { result ≡ code (outcome (length out.old) (message_output Call.General text.now)) }
    ensures shows { value.new ≡ worth (outcome (length out.old) (message_output Call.General text.now)) }
    ensures left { out.new ≡ after out.old (message_output Call.General text.now) }
{
    tell(message::message(Call::General, text, out), value)
}

#[unsafe(no_mangle)]
pub extern "C" fn geusomin_message_function(text: &[u8], out: &mut [u8], value: &mut usize) -> u32
    ensures tells { result ≡ code (outcome (length out.old) (message_output Call.Function text.now)) }
    ensures shows { value.new ≡ worth (outcome (length out.old) (message_output Call.Function text.now)) }
    ensures left { out.new ≡ after out.old (message_output Call.Function text.now) }
{
    tell(message::message(Call::Function, text, out), value)
}

#[unsafe(no_mangle)]
pub extern "C" fn geusomin_message_constructor(
    text: &[u8],
    out: &mut [u8],
    value: &mut usize,
) -> u32
    ensures tells { result ≡ code (outcome (length out.old) (message_output Call.Constructor text.now)) }
    ensures shows { value.new ≡ worth (outcome (length out.old) (message_output Call.Constructor text.now)) }
    ensures left { out.new ≡ after out.old (message_output Call.Constructor text.now) }
{
    tell(message::message(Call::Constructor, text, out), value)
}

#[unsafe(no_mangle)]
pub extern "C" fn geusomin_message_event(text: &[u8], out: &mut [u8], value: &mut usize) -> u32
    ensures tells { result ≡ code (outcome (length out.old) (message_output Call.Event text.now)) }
    ensures shows { value.new ≡ worth (outcome (length out.old) (message_output Call.Event text.now)) }
    ensures left { out.new ≡ after out.old (message_output Call.Event text.now) }
{
    tell(message::message(Call::Event, text, out), value)
}

#[unsafe(no_mangle)]
pub extern "C" fn geusomin_message_error(text: &[u8], out: &mut [u8], value: &mut usize) -> u32
    ensures tells { result ≡ code (outcome (length out.old) (message_output Call.Error text.now)) }
    ensures shows { value.new ≡ worth (outcome (length out.old) (message_output Call.Error text.now)) }
    ensures left { out.new ≡ after out.old (message_output Call.Error text.now) }
{
    tell(message::message(Call::Error, text, out), value)
}
