// Little-endian words, and bytes, put into bytes that a caller lends.
#![tactic(auto)]

ghost use Rattle.std.specs.Prelude.{◌≡◌, ◌+◌, ◌*◌, ◌≤◌, length};
ghost use Rattle.le.specs.Le.{byte_at};
ghost use Rattle.lent.specs.Lent.{bytes_put, word_put, words_put, row_put, numbers_put};

// v as word w. It is compiled to one store.
pub fn put_word(b: &mut [u8], w: usize, v: u64)
    requires { 8 * w + 8 ≤ length b.old }
    ensures { b.new ≡ word_put w v b.old }
{
    let at = 8 * w;
    b[at] = (v % 256) as u8;
    b[at + 1] = (v / 256 % 256) as u8;
    b[at + 2] = (v / 65536 % 256) as u8;
    b[at + 3] = (v / 16777216 % 256) as u8;
    b[at + 4] = (v / 4294967296 % 256) as u8;
    b[at + 5] = (v / 1099511627776 % 256) as u8;
    b[at + 6] = (v / 281474976710656 % 256) as u8;
    b[at + 7] = (v / 72057594037927936 % 256) as u8;
}

// 0 as each of the first n words. It is compiled to a fill of 8 * n bytes.
pub fn clear_words(b: &mut [u8], n: usize)
    requires { 8 * n ≤ length b.old }
    ensures { b.new ≡ words_put 0 n (λ _. 0) b.old }
{
    for i in 0..8 * n {
        b[i] = 0;
    }
}

// Eight words as row n.
pub fn put_words(b: &mut [u8], n: usize, words: [u64; 8])
    requires { 64 * n + 64 ≤ length b.old }
    ensures { b.new ≡ row_put n words b.old }
{
    for k in 0..8 {
        put_word(b, 8 * n + k, words[k]);
    }
}

// Numbers as words in front; nothing where fewer words are lent.
pub fn put_numbers(b: &mut [u8], numbers: &[u64])
    ensures { b.new ≡ numbers_put numbers.now b.old }
{
    let n = numbers.len();
    if b.len() / 8 < n {
        return;
    }
    for k in 0..n {
        put_word(b, k, numbers[k]);
    }
}

// The first n bytes of others in front. It is compiled to a copy of n bytes.
pub fn put_bytes(b: &mut [u8], from: &[u8], n: usize)
    requires { (n ≤ length b.old) × (n ≤ length from.now) }
    ensures { b.new ≡ bytes_put 0 n (λ j. byte_at from.now j) b.old }
{
    for i in 0..n {
        b[i] = from[i];
    }
}
