// What one record comes to over the tables in lent memory: the definitions and what they prove stand in specs/; the code is crate `turns`.
#![tactic(auto)]

// The tables, in memory that is lent: "any tables get a reply", so nothing is asked of what they hold or of how long they are.
// That a function leaves the caller his own slices is the clause `loans` of each: the struct alone would not say so.
#[derive(Drop)]
pub struct Lent<'a> {
    pub programs: &'a mut [u64],
    pub terminals: &'a mut [u64],
    pub requests: &'a mut [u64],
    pub area: &'a mut [u8],
    pub queues: &'a mut [u64],
    pub items: &'a mut [u8],
    pub settings: &'a mut [u64],
}
