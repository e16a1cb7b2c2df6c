// How many words at the front of a list pass a test: the words in range, the run of a symbol, the one-bit symbols. Each function
// asks that the test can always be called, since no type of a closure says so.
ghost use Rattle.std.specs.Prelude.{◌≡◌, true, ◌≤◌, ◌<◌, length};
ghost use Rattle.twcc_plan.specs.Front.{Yes, Passes};

// One by one.
pub(crate) fn one_by_one<F: Fn(i32) -> bool>(list: &[i32], test: &F) -> usize
    requires { F.IsAlwaysCallable test.now }
    ensures { Passes (F.post test.now) list.now result }
{
    list.iter()
        .position(|word| !test(*word))
        .unwrap_or(list.len())
}

// Whether all of a block pass, without a jump: the compiler turns it into vector code.
fn all_pass<F: Fn(i32) -> bool>(block: &[i32], test: &F) -> bool
    requires { F.IsAlwaysCallable test.now }
    ensures { result ≡ true → Yes (F.post test.now) block.now (length block.now) }
{
    let mut all = true;
    for word in block {
        all &= test(*word);
    }
    all
}

// Those in whole blocks of N words, as far as all of a block pass.
fn whole_blocks<const N: usize, F: Fn(i32) -> bool>(list: &[i32], test: &F) -> usize
    requires some { 0 < N }
    requires callable { F.IsAlwaysCallable test.now }
    ensures within { result ≤ length list.now }
    ensures pass { Yes (F.post test.now) list.now result }
{
    let mut n = 0;
    for block in list.chunks_exact(N) {
        if !all_pass(block, test) {
            return n;
        }
        n += N;
    }
    n
}

// Blocks first: the place is looked for only in a block that does not pass.
pub(crate) fn by_blocks<const N: usize, F: Fn(i32) -> bool>(list: &[i32], test: &F) -> usize
    requires some { 0 < N }
    requires callable { F.IsAlwaysCallable test.now }
    ensures { Passes (F.post test.now) list.now result }
{
    let n = whole_blocks::<N, F>(list, test);
    n + one_by_one(&list[n..], test)
}
