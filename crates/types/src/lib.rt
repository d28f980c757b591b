// The standard types (RULES 10.1): kind, data type ID and signature. What is proved and uses a signature takes it from here.
#![tactic(auto)]

ghost use Rattle.std.specs.Prelude.{◌≡◌};
ghost use Rattle.types.specs.Types.{signature_of};

// The signature of a standard type, of kind 0 (message) or 1 (service); 0 of any other. Numbers, for the C call that passes them on
// (`tecelume_signature`) and `signature_of` have them.
pub fn signature(kind: u32, type_id: u32) -> u64
    ensures { result ≡ signature_of kind type_id }
{
    if kind == 0 {
        return match type_id {
            341 => 0x0F0868D0C1A7C6F1,
            1 => 0x0B2A812620A11D40,
            16370 => 0xE02F25D6E0C98AE0,
            16383 => 0xD654A48E0C049D75,
            1092 => 0x249C26548A711966,
            1030 => 0x217F5C87D7EC951D,
            _ => 0,
        };
    }
    if kind == 1 {
        return match type_id {
            1 => 0xEE468A8121C46A9E,
            11 => 0xA7B622F939D1A4D5,
            10 => 0x3B131AC5EB69D2CD,
            _ => 0,
        };
    }
    0
}
