// Laws of the pool.
ghost use Rattle.hash_pool.specs.Growth.{Growths};
ghost use Rattle.hash_pool.specs.Names.{PoolNames};

/// The law that each SHA-256 is a name of the pool, and no other one's; so what is found under a name in a pool whose files are
/// named by their SHA-256 has that SHA-256.
pub fn law_of_pool_names()
    ensures { PoolNames }
{}

/// The laws of a pool that grows: one growth after another is one; what is there stays, what is elsewhere is as it was, and a
/// stop leaves it so; and where each file was named by its SHA-256 it is so at every moment.
pub fn law_of_growth()
    ensures { Growths }
{}
