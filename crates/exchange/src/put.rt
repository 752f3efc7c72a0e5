// Bytes put in place.
ghost use Rattle.std.specs.Prelude.{◌≡◌, ◌+◌, ◌≤◌, length};
ghost use Rattle.std.proofs.lemmas.List.Edits.{sets};

// These bytes, from that place on. The library's copy of a slice would ask a host for `memmove` where nothing else does.
pub fn put_bytes(table: &mut [u8], at: usize, bytes: &[u8])
    requires { at + length bytes.now ≤ length table.old }
    ensures { table.new ≡ sets table.old at bytes.now }
{
    for k in 0..bytes.len() {
        table[at + k] = bytes[k];
    }
}
