//! What `--explain` says of a refusal: by command, path and device, of a network's files, and of bytes that break a rule.

pub(crate) mod damage;
pub(crate) mod explaining;
pub(crate) mod explaining_trace;
pub(crate) mod full_journal;
pub(crate) mod head_rules;
pub(crate) mod image_rules;
pub(crate) mod line_rules;
pub(crate) mod looking;
pub(crate) mod network_files;
pub(crate) mod places;
pub(crate) mod reopening;
pub(crate) mod rules;
pub(crate) mod topology_text;
