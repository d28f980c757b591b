// GetNodeInfo's request as a row of none (RULES 10.6).
ghost use Rattle.std.specs.Prelude.{◌≡◌, length};
ghost use Rattle.row.specs.Row as form;
ghost use Rattle.message_fields.specs.GetNodeInfo.{request_in, request_made};

use protocol::get_node_info_request;

// Reads a request: 16 for any byte.
pub fn decode(payload: &[u8], fields: &mut [u64]) -> u32
    ensures { (result, fields.new) ≡ form.row (request_in payload.now) fields.old }
{
    match get_node_info_request::decode(payload) {
        Err(r) => r.number(),
        Ok(()) => 0,
    }
}

// Writes a request, which is empty. There is nothing to look for in the row.
pub fn encode(fields: &[u64], out: &mut [u8]) -> u64
    ensures { (result, out.new) ≡ form.message (request_made fields.now (length out.old)) out.old }
{
    row::of_written(get_node_info_request::encode(out))
}
