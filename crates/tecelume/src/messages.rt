// Messages from C (RULES 13.5): each type both ways, between a payload and a row of numbers. include/tecelume.h has a struct for each.
ghost use Rattle.std.specs.Prelude.{◌≡◌, length};
ghost use Rattle.row.specs.Row.{row, message};
ghost use Rattle.message_fields.specs.Allocation.{allocation_in, allocation_made};
ghost use Rattle.message_fields.specs.BatteryInfo.{info_in, info_made};
ghost use Rattle.message_fields.specs.ExecuteOpcode as opcode;
ghost use Rattle.message_fields.specs.GetNodeInfo as info;
ghost use Rattle.message_fields.specs.GetSet as parameter;
ghost use Rattle.message_fields.specs.KeyValue.{key_value_in, key_value_made};
ghost use Rattle.message_fields.specs.LogMessage.{log_message_in, log_message_made};
ghost use Rattle.message_fields.specs.NodeStatus.{status_in, status_made};
ghost use Rattle.message_fields.specs.RawCommand.{commands_in, commands_made};

pub fn tecelume_decode_node_status_fields(payload: &[u8], fields: &mut [u64]) -> u32
    ensures { (result, fields.new) ≡ row (status_in payload.now) fields.old }
{
    message_fields::node_status::decode(payload, fields)
}

pub fn tecelume_encode_node_status_fields(fields: &[u64], out: &mut [u8]) -> u64
    ensures { (result, out.new) ≡ message (status_made fields.now (length out.old)) out.old }
{
    message_fields::node_status::encode(fields, out)
}

pub fn tecelume_decode_get_node_info_request_fields(payload: &[u8], fields: &mut [u64]) -> u32
    ensures { (result, fields.new) ≡ row (info.request_in payload.now) fields.old }
{
    message_fields::get_node_info_request::decode(payload, fields)
}

pub fn tecelume_encode_get_node_info_request_fields(fields: &[u64], out: &mut [u8]) -> u64
    ensures { (result, out.new) ≡ message (info.request_made fields.now (length out.old)) out.old }
{
    message_fields::get_node_info_request::encode(fields, out)
}

pub fn tecelume_decode_get_node_info_response_fields(payload: &[u8], fields: &mut [u64]) -> u32
    ensures { (result, fields.new) ≡ row (info.response_in payload.now) fields.old }
{
    message_fields::get_node_info_response::decode(payload, fields)
}

pub fn tecelume_encode_get_node_info_response_fields(
    fields: &[u64],
    unique_id: &[u8],
    certificate_of_authenticity: &[u8],
    name: &[u8],
    out: &mut [u8],
) -> u64
    ensures { (result, out.new) ≡ message (info.response_made fields.now unique_id.now certificate_of_authenticity.now name.now (length out.old)) out.old }
{
    message_fields::get_node_info_response::encode(
        fields,
        unique_id,
        certificate_of_authenticity,
        name,
        out,
    )
}

pub fn tecelume_decode_allocation_fields(payload: &[u8], fields: &mut [u64]) -> u32
    ensures { (result, fields.new) ≡ row (allocation_in payload.now) fields.old }
{
    message_fields::allocation::decode(payload, fields)
}

pub fn tecelume_encode_allocation_fields(fields: &[u64], unique_id: &[u8], out: &mut [u8]) -> u64
    ensures { (result, out.new) ≡ message (allocation_made fields.now unique_id.now (length out.old)) out.old }
{
    message_fields::allocation::encode(fields, unique_id, out)
}

pub fn tecelume_decode_key_value_fields(payload: &[u8], fields: &mut [u64]) -> u32
    ensures { (result, fields.new) ≡ row (key_value_in payload.now) fields.old }
{
    message_fields::key_value::decode(payload, fields)
}

pub fn tecelume_encode_key_value_fields(fields: &[u64], key: &[u8], out: &mut [u8]) -> u64
    ensures { (result, out.new) ≡ message (key_value_made fields.now key.now (length out.old)) out.old }
{
    message_fields::key_value::encode(fields, key, out)
}

pub fn tecelume_decode_log_message_fields(payload: &[u8], fields: &mut [u64]) -> u32
    ensures { (result, fields.new) ≡ row (log_message_in payload.now) fields.old }
{
    message_fields::log_message::decode(payload, fields)
}

pub fn tecelume_encode_log_message_fields(
    fields: &[u64],
    source: &[u8],
    text: &[u8],
    out: &mut [u8],
) -> u64
    ensures { (result, out.new) ≡ message (log_message_made fields.now source.now text.now (length out.old)) out.old }
{
    message_fields::log_message::encode(fields, source, text, out)
}

pub fn tecelume_decode_battery_info_fields(payload: &[u8], fields: &mut [u64]) -> u32
    ensures { (result, fields.new) ≡ row (info_in payload.now) fields.old }
{
    message_fields::battery_info::decode(payload, fields)
}

pub fn tecelume_encode_battery_info_fields(fields: &[u64], model_name: &[u8], out: &mut [u8]) -> u64
    ensures { (result, out.new) ≡ message (info_made fields.now model_name.now (length out.old)) out.old }
{
    message_fields::battery_info::encode(fields, model_name, out)
}

pub fn tecelume_decode_raw_command_fields(payload: &[u8], fields: &mut [u64]) -> u32
    ensures { (result, fields.new) ≡ row (commands_in payload.now) fields.old }
{
    message_fields::raw_command::decode(payload, fields)
}

pub fn tecelume_encode_raw_command_fields(fields: &[u64], out: &mut [u8]) -> u64
    ensures { (result, out.new) ≡ message (commands_made fields.now (length out.old)) out.old }
{
    message_fields::raw_command::encode(fields, out)
}

pub fn tecelume_decode_get_set_request_fields(payload: &[u8], fields: &mut [u64]) -> u32
    ensures { (result, fields.new) ≡ row (parameter.request_in payload.now) fields.old }
{
    message_fields::get_set_request::decode(payload, fields)
}

pub fn tecelume_encode_get_set_request_fields(
    fields: &[u64],
    string_value: &[u8],
    name: &[u8],
    out: &mut [u8],
) -> u64
    ensures { (result, out.new) ≡ message (parameter.request_made fields.now string_value.now name.now (length out.old)) out.old }
{
    message_fields::get_set_request::encode(fields, string_value, name, out)
}

pub fn tecelume_decode_get_set_response_fields(payload: &[u8], fields: &mut [u64]) -> u32
    ensures { (result, fields.new) ≡ row (parameter.response_in payload.now) fields.old }
{
    message_fields::get_set_response::decode(payload, fields)
}

pub fn tecelume_encode_get_set_response_fields(
    fields: &[u64],
    string_value: &[u8],
    default_string_value: &[u8],
    name: &[u8],
    out: &mut [u8],
) -> u64
    ensures { (result, out.new) ≡ message (parameter.response_made fields.now string_value.now default_string_value.now name.now (length out.old)) out.old }
{
    message_fields::get_set_response::encode(fields, string_value, default_string_value, name, out)
}

pub fn tecelume_decode_execute_opcode_request_fields(payload: &[u8], fields: &mut [u64]) -> u32
    ensures { (result, fields.new) ≡ row (opcode.request_in payload.now) fields.old }
{
    message_fields::execute_opcode_request::decode(payload, fields)
}

pub fn tecelume_encode_execute_opcode_request_fields(fields: &[u64], out: &mut [u8]) -> u64
    ensures { (result, out.new) ≡ message (opcode.request_made fields.now (length out.old)) out.old }
{
    message_fields::execute_opcode_request::encode(fields, out)
}

pub fn tecelume_decode_execute_opcode_response_fields(payload: &[u8], fields: &mut [u64]) -> u32
    ensures { (result, fields.new) ≡ row (opcode.response_in payload.now) fields.old }
{
    message_fields::execute_opcode_response::decode(payload, fields)
}

pub fn tecelume_encode_execute_opcode_response_fields(fields: &[u64], out: &mut [u8]) -> u64
    ensures { (result, out.new) ≡ message (opcode.response_made fields.now (length out.old)) out.old }
{
    message_fields::execute_opcode_response::encode(fields, out)
}
