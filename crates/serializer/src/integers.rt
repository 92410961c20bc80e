// Small integers in bytes.
ghost use Rattle.std.specs.Prelude.{◌≡◌};
ghost use Rattle.serializer.specs.Smi.{smi_high, smi_tagged, smi_bytes, smi_at};
ghost use Rattle.serializer.specs.Numbers.{smi_numbers};

#[tactic(auto, unfolding(crate::specs::Smi::smi_bytes))]
pub fn decode_smi_bytes(d: &[u8]) -> Option<i64>
    ensures { smi_numbers result ≡ smi_numbers (smi_bytes d.now) }
{
    match d.len() {
        8 => smi_high(words::u32_at(d, 0), words::u32_at(d, 4)),
        4 => smi_tagged(words::u32_at(d, 0)),
        _ => None,
    }
}

// decode_smi_bytes of bytes of the payload.
pub fn smi_at(payload: &[u8], at: usize, len: usize) -> Option<i64>
    ensures { result ≡ smi_at payload.now at len }
{
    decode_smi_bytes(crate::lent(payload, at, len))
}

fn smi_high(low: u32, high: u32) -> Option<i64>
    ensures { result ≡ smi_high low high }
{
    (low == 0).then_some(i64::from(high.cast_signed()))
}

fn smi_tagged(raw: u32) -> Option<i64>
    ensures { result ≡ smi_tagged raw }
{
    (raw % 2 == 0).then_some(i64::from(raw.cast_signed() >> 1))
}
