// What the C interface answers: the number that a call returns, the buffers that it fills, and the images of the next records.
#![tactic(auto)]

pub mod auc_answer;
pub mod buffers;
pub mod results;
pub mod usim_answer;
