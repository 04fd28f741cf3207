// Two records of counts added, place by place, where no sum passes 2^63-1.
ghost use Rattle.std.specs.Prelude.{◌≡◌, true, length};
ghost use Rattle.survey.specs.Survey.{Added, fits_to, sum_of, add_of};

// So many counts has a record.
pub const COUNTS: usize = 37;

// No count passes it.
pub const LIMIT: u64 = 9223372036854775807;

// Whether every sum fits.
fn fits(counts: &[u64], other: &[u64]) -> bool
    requires { (length counts.now ≡ 37) × (length other.now ≡ 37) }
    ensures { result ≡ fits_to counts.now other.now 37 }
{
    for i in 0..COUNTS {
        let a = counts[i];
        if LIMIT < a || LIMIT - a < other[i] {
            return false;
        }
    }
    true
}

fn sum(counts: &mut [u64], other: &[u64])
    requires counts_len { (length counts.old ≡ 37) × (length other.now ≡ 37) }
    requires other_value { fits_to counts.old other.now 37 ≡ true }
    ensures { counts.new ≡ sum_of counts.old other.now }
{
    for i in 0..COUNTS {
        counts[i] += other[i];
    }
}

// Stays a number: the promises state an addition by its number, and C is told it as it stands.
// One record added to another: 9 where one of them has not 37 counts, 15 where a sum would pass 2^63-1; then the record is unchanged.
pub fn add(counts: &mut [u64], other: &[u64]) -> u32
    ensures { ◌≡◌ {A = Added} (record { number = result; counts = counts.new })
        (add_of counts.old other.now) }
{
    if counts.len() != COUNTS {
        return 9;
    }
    if other.len() != COUNTS {
        return 9;
    }
    if !fits(counts, other) {
        return 15;
    }
    sum(counts, other);
    0
}
