// Works out the signatures of the message types from texts of their definitions (RULES 17), and prints each beside the number of the
// public DroneCAN set.
#![tactic(auto)]

use bits::le;
use std::io;

// How many definitions there are, one after the other in a source; where the next one goes; the lengths of their names and texts (RULES 17.12).
#[derive(Drop)]
struct Given {
    at: usize,
    count: usize,
    lengths: [u8; 64],
}

fn none() -> Given {
    Given {
        at: 0,
        count: 0,
        lengths: [0; 64],
    }
}

// The text behind what is there; where the next one goes, or the end if there is no room.
fn put(source: &mut [u8], at: usize, text: &[u8]) -> usize {
    if source.len() < at {
        return source.len();
    }
    let n = text.len();
    if source.len() - at < n {
        return source.len();
    }
    bits::part::copy_at(source, at, text);
    at + n
}

// A length, if there is room.
fn put_length(lengths: &mut [u8], at: usize, n: usize) {
    if lengths.len() < at {
        return;
    }
    if lengths.len() - at < 4 {
        return;
    }
    le::put_at(lengths, at, 4, n as u64);
}

// A definition: the name of a type, and the text.
#[derive(Clone, Copy)]
struct Definition {
    name: &'static [u8],
    text: &'static [u8],
}

// One more definition, of at most eight.
fn with(g: Given, source: &mut [u8], d: &Definition) -> Given {
    let count = g.count;
    if 7 < count {
        return g;
    }
    let named = put(source, g.at, d.name);
    let end = put(source, named, d.text);
    let mut lengths = g.lengths;
    put_length(&mut lengths, count * 8, d.name.len());
    put_length(&mut lengths, count * 8 + 4, d.text.len());
    Given {
        at: end,
        count: count + 1,
        lengths,
    }
}

// All of them, one after the other.
fn all_of(definitions: &[Definition], source: &mut [u8]) -> Given {
    let mut g = none();
    for d in definitions {
        g = with(g, source, d);
    }
    g
}

const NODE_STATUS: Definition = Definition {
    name: b"uavcan.protocol.NodeStatus",
    text: b"uint32 uptime_sec
uint2 HEALTH_OK = 0
uint2 HEALTH_CRITICAL = 3
uint2 health
uint3 MODE_OFFLINE = 7
uint3 mode
uint3 sub_mode # zero
uint16 vendor_specific_status_code
",
};

const GET_NODE_INFO: Definition = Definition {
    name: b"uavcan.protocol.GetNodeInfo",
    text: b"---
NodeStatus status
SoftwareVersion software_version
HardwareVersion hardware_version
uint8[<=80] name
",
};

const SOFTWARE_VERSION: Definition = Definition {
    name: b"uavcan.protocol.SoftwareVersion",
    text: b"uint8 major
uint8 minor
uint8 OPTIONAL_FIELD_FLAG_VCS_COMMIT = 1
uint8 OPTIONAL_FIELD_FLAG_IMAGE_CRC  = 2
uint8 optional_field_flags
uint32 vcs_commit
uint64 image_crc
",
};

const HARDWARE_VERSION: Definition = Definition {
    name: b"uavcan.protocol.HardwareVersion",
    text: b"uint8 major
uint8 minor
uint8[16] unique_id
uint8[<=255] certificate_of_authenticity
",
};

const ALLOCATION: Definition = Definition {
    name: b"uavcan.protocol.dynamic_node_id.Allocation",
    text: b"uint16 FOLLOWUP_TIMEOUT_MS = 500
uint7 ANY_NODE_ID = 0
uint7 node_id
bool first_part_of_unique_id
uint8[<=16] unique_id
",
};

const KEY_VALUE: Definition = Definition {
    name: b"uavcan.protocol.debug.KeyValue",
    text: b"float32 value
uint8[<=58] key
",
};

const LOG_MESSAGE: Definition = Definition {
    name: b"uavcan.protocol.debug.LogMessage",
    text: b"LogLevel level
uint8[<=31] source
uint8[<=90] text
",
};

const LOG_LEVEL: Definition = Definition {
    name: b"uavcan.protocol.debug.LogLevel",
    text: b"uint3 DEBUG = 0
uint3 ERROR = 3
uint3 value
",
};

const BATTERY_INFO: Definition = Definition {
    name: b"uavcan.equipment.power.BatteryInfo",
    text: b"float16 temperature
float16 voltage
float16 current
float16 average_power_10sec
float16 remaining_capacity_wh
float16 full_charge_capacity_wh
float16 hours_to_full_charge
uint11 STATUS_FLAG_IN_USE = 1
uint11 STATUS_FLAG_RESERVED_B = 1024
uint11 status_flags
uint7 STATE_OF_HEALTH_UNKNOWN = 127
uint7 state_of_health_pct
uint7 state_of_charge_pct
uint7 state_of_charge_pct_stdev
uint8 battery_id
uint32 model_instance_id
uint8[<=31] model_name
",
};

const RAW_COMMAND: Definition = Definition {
    name: b"uavcan.equipment.esc.RawCommand",
    text: b"int14[<=20] cmd
",
};

const GET_SET: Definition = Definition {
    name: b"uavcan.protocol.param.GetSet",
    text: b"uint13 index
Value value
uint8[<=92] name
---
void5
Value value
void5
Value default_value
void6
NumericValue max_value
void6
NumericValue min_value
uint8[<=92] name
",
};

const VALUE: Definition = Definition {
    name: b"uavcan.protocol.param.Value",
    text: b"@union
Empty empty
int64 integer_value
float32 real_value
uint8 boolean_value
uint8[<=128] string_value
",
};

const NUMERIC_VALUE: Definition = Definition {
    name: b"uavcan.protocol.param.NumericValue",
    text: b"@union
Empty empty
int64 integer_value
float32 real_value
",
};

const EMPTY: Definition = Definition {
    name: b"uavcan.protocol.param.Empty",
    text: b"",
};

const EXECUTE_OPCODE: Definition = Definition {
    name: b"uavcan.protocol.param.ExecuteOpcode",
    text: b"uint8 OPCODE_SAVE = 0
uint8 OPCODE_ERASE = 1
uint8 opcode
int48 argument
---
int48 argument
bool ok
",
};

// The call with the first n bytes of lengths. A refusal leaves the records, and shows in the table.
fn work_out(source: &[u8], lengths: &[u8], n: usize, records: &mut [u8]) {
    let mut forms = [0u8; 2000];
    if n <= lengths.len() {
        let _ = dsdl_signature::call::signatures(source, &lengths[0..n], &mut forms, records);
    }
}

// Length and signature of each form.
fn records_of(g: Given, source: &[u8]) -> [u8; 96] {
    let mut records = [0u8; 96];
    let count = g.count;
    if count <= 8 {
        let lengths = g.lengths;
        work_out(source, &lengths, count * 8, &mut records);
    }
    records
}

// A row of the table: the signature in record i, the public number, and whether they are the same.
fn row(rt: &impl Print, name: &str, records: [u8; 96], i: usize, public: u64) -> io::Result<()> {
    if 7 < i {
        return Ok(());
    }
    let found = le::get_at(&records, i * 12 + 4, 8);
    let compared = if found == public { "same" } else { "DIFFERENT" };
    println!(rt; "{found:016x} {public:016x} {compared} {name}")
}

// What the transport and the debugging of nodes use.
fn protocol(rt: &impl Print) -> io::Result<()> {
    let mut source = [0u8; 2000];
    let definitions = [
        NODE_STATUS,
        GET_NODE_INFO,
        SOFTWARE_VERSION,
        HARDWARE_VERSION,
        ALLOCATION,
        KEY_VALUE,
        LOG_MESSAGE,
        LOG_LEVEL,
    ];
    let g = all_of(&definitions, &mut source);
    let r = records_of(g, &source);
    row(
        rt,
        "uavcan.protocol.NodeStatus",
        r,
        0,
        types::signature(0, 341),
    )?;
    row(
        rt,
        "uavcan.protocol.GetNodeInfo",
        r,
        1,
        types::signature(1, 1),
    )?;
    row(
        rt,
        "uavcan.protocol.dynamic_node_id.Allocation",
        r,
        4,
        types::signature(0, 1),
    )?;
    row(
        rt,
        "uavcan.protocol.debug.KeyValue",
        r,
        5,
        types::signature(0, 16370),
    )?;
    row(
        rt,
        "uavcan.protocol.debug.LogMessage",
        r,
        6,
        types::signature(0, 16383),
    )
}

fn equipment(rt: &impl Print) -> io::Result<()> {
    let mut source = [0u8; 2000];
    let definitions = [BATTERY_INFO, RAW_COMMAND];
    let g = all_of(&definitions, &mut source);
    let r = records_of(g, &source);
    row(
        rt,
        "uavcan.equipment.power.BatteryInfo",
        r,
        0,
        types::signature(0, 1092),
    )?;
    row(
        rt,
        "uavcan.equipment.esc.RawCommand",
        r,
        1,
        types::signature(0, 1030),
    )
}

// Types of the parameters, with unions and padding. `types` does not have them.
fn parameters(rt: &impl Print) -> io::Result<()> {
    let mut source = [0u8; 2000];
    let definitions = [GET_SET, VALUE, NUMERIC_VALUE, EMPTY, EXECUTE_OPCODE];
    let g = all_of(&definitions, &mut source);
    let r = records_of(g, &source);
    row(
        rt,
        "uavcan.protocol.param.GetSet",
        r,
        0,
        types::signature(1, 11),
    )?;
    row(
        rt,
        "uavcan.protocol.param.ExecuteOpcode",
        r,
        4,
        types::signature(1, 10),
    )
}

fn main(rt: HostRuntime) -> io::Result<()> {
    protocol(&rt)?;
    equipment(&rt)?;
    parameters(&rt)
}
