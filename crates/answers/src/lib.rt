// What each call answers of any byte string: the verdict, the report, the relocation query, the base check and the address check. These are definitions alone,
// in specs/, and what a reader must believe. Here are the structs of the answers.
#![tactic(auto)]

use igvm_defs::Refusal;
use rules::PageTableRegion;

// The refusal, and how many headers each list of an accepted file has; these are 0 where the file is refused.
#[derive(Clone, Copy)]
pub struct Verdict {
    pub refusal: Refusal,
    pub platforms: u64,
    pub initializations: u64,
    pub directives: u64,
}

// How many regions the mask has, whether it has a page-table region, and that region's numbers; 0 or no in all of these where the call is refused.
#[derive(Clone, Copy)]
pub struct Relocations {
    pub refusal: Refusal,
    pub count: u64,
    pub has_page_table: bool,
    pub page_table: PageTableRegion,
}

// The number of a named answer, from 1; 0 where the call is refused.
#[derive(Clone, Copy)]
pub struct Answered {
    pub refusal: Refusal,
    pub answer: u64,
}

// Whether the address is contained; no where the call is refused.
#[derive(Clone, Copy)]
pub struct Checked {
    pub refusal: Refusal,
    pub holds: bool,
}

// Whether 15 and 34 are told, how many rows the sheet has, and how many of them are faulty; 0 or no in all of these where the call is refused.
#[derive(Clone, Copy)]
pub struct Report {
    pub refusal: Refusal,
    pub no_platform: bool,
    pub no_context: bool,
    pub rows: u64,
    pub faulty: u64,
}
