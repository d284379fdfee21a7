// What a row says, by the list that it is of.
#![tactic(auto)]

ghost use Rattle.std.specs.Prelude.{◌≡◌, ℕ, List, ◌≤◌, length};
ghost use Rattle.igvm_defs.specs.Kinds.{kind_of};

// The headers of one list of rows.
pub trait Header {
    // the list's number in the table of kinds
    ghost list: { ℕ };

    // the header that a row's kind and body say
    ghost header_of: { ℕ → List ℕ → Self };

    fn decode(kind: u32, body: &[u8]) -> Self
        requires kind_value { (kind_of kind).list ≡ list }
        requires kind_in_bounds { (kind_of kind).least ≤ length body.now }
        ensures { result ≡ header_of kind body.now };
}
