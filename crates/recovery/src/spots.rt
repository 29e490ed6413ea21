// The sites of a word.
use codes::ROOM;
use skew::{Few, Site};

// At most 24 sites.
pub type Spots = Few<Site, ROOM>;
