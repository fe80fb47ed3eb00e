// Where a block number lies: its stripe and column, and the slot of a column. The columns are rotated by one slot from stripe to stripe.
ghost use Rattle.std.specs.Prelude.{◌≡◌, ℕ, ◌+◌, ◌*◌, ◌%◌, ◌<◌, if◌then◌else◌, nat_eq};
ghost use Rattle.layout.specs.Stripes.{stripe_of, column_of, slot_of, column_on, located, placed};

// The stripe and the column of a block number, with k data columns.
pub fn locate(k: u8, block: u32) -> (u32, u8)
    ensures value { result ≡ located k block }
    ensures place { 0 < k → (result.0 ≡ stripe_of k block) × (result.1 ≡ column_of k block) }
    ensures back { 0 < k → (result.1 < k) × (result.0 * k + result.1 ≡ block) }
{
    if k == 0 {
        return (0, 0);
    }
    let k = k as u32;
    (block / k, (block % k) as u8)
}

// The slot at which a column of a stripe lies, with n slots, and the block there.
pub fn place(n: u8, stripe: u32, column: u8) -> (u32, u32)
    ensures value { result ≡ placed n stripe column }
    ensures slot { 0 < n → (result.0 ≡ slot_of n stripe column) × (result.0 < n) }
    ensures back { column < n → column_on n stripe result.0 ≡ column }
    ensures next { 0 < n → slot_of n (stripe + 1) column ≡ (result.0 + 1) % n }
{
    if n == 0 {
        return (0, stripe);
    }
    (slot_of(n, stripe, column), stripe)
}

// The column of a stripe that a slot holds, with n slots.
pub fn column_on(n: u8, stripe: u32, slot: u32) -> u8
    ensures value { result ≡ (if nat_eq n 0 then 0 else column_on n stripe slot) }
    ensures column { 0 < n → (result ≡ column_on n stripe slot) × (result < n) }
    ensures back { slot < n → slot_of n stripe result ≡ slot }
{
    if n == 0 {
        return 0;
    }
    held_column(n, stripe, slot)
}

fn slot_of(n: u8, stripe: u32, column: u8) -> u32
    requires { 0 < n }
    ensures value { result ≡ slot_of n stripe column }
    ensures below { result < n }
    ensures back { column < n → column_on n stripe result ≡ column }
    ensures next { slot_of n (stripe + 1) column ≡ (result + 1) % n }
{
    let slot = (column as u64 + stripe as u64) % n as u64;
    slot as u32
}

fn held_column(n: u8, stripe: u32, slot: u32) -> u8
    requires { 0 < n }
    ensures value { result ≡ column_on n stripe slot }
    ensures below { result < n }
    ensures back { slot < n → slot_of n stripe result ≡ slot }
{
    let n = n as u64;
    let column = (slot as u64 + (n - stripe as u64 % n)) % n;
    column as u8
}
