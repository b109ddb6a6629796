// What the hosts of a run mean.
ghost use Rattle.eng_value.specs.HostMeanings.{HostMeanings, no_hosts};

use std::marker::Brand;

/// What all hosts of a run mean, as one plain record. A function that is generic over `M: Meanings` is proved for every
/// such record, and the outermost call picks the one that its hosts tell.
pub trait Meanings {
    ghost hosts: { HostMeanings };
}

impl Meanings for Brand {
    ghost hosts = { no_hosts };
}
