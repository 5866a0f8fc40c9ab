//! The pager as a store of nodes.

ghost use Rattle.bd_pager.specs.Calling.{read_none, read_both, read_known, read_keeps, keeps_both};
ghost use Rattle.bd_pager.specs.Keeping.{KeepsSaved};
ghost use Rattle.bd_pager.specs.Pagers.{table_of, nodes_of, is_known, is_bad, IsReadOf};

use super::Pager;
use bd_device::Device;
use bd_message::MapFault;
use bd_node::{Items, Messages, Node, NodeStore, Push, Step};
use std::rc::Rc;

impl<D: Device> NodeStore for Pager<D> {
    ghost is_known = { is_known D.Device };

    ghost nodes = { nodes_of D.Device };

    ghost table = { table_of };

    ghost visit_count = { λ p. p.visits };

    ghost fault_count = { λ p. D.fault_count p.dev };

    ghost last_failed = { λ p. D.last_failed p.dev };

    ghost bad = { is_bad D.Device };

    ghost reads = { IsReadOf D.Device };

    ghost keeps = { KeepsSaved D.Device };

    ghost reads_none = { read_none D.Device.own };

    ghost reads_both = { read_both D.Device.own };

    ghost reads_known = { read_known D.Device.own };

    ghost reads_keep = { read_keeps D.Device.own };

    ghost keeps_both = { keeps_both D.Device.own };

    fn fetch(&mut self, id: u64) -> Result<Rc<Node>, MapFault> {
        Pager::fetch(self, id)
    }

    fn commit(&mut self, step: Step) -> Result<(), MapFault> {
        Pager::commit(self, step)
    }

    fn append(&mut self, list: Messages) -> Result<(), MapFault> {
        Pager::append(self, list)
    }

    fn extend(&mut self, made: Items<Node>, list: Messages) -> Result<(), MapFault> {
        Pager::extend(self, made, list)
    }

    fn push_down(&mut self, push: Push) -> Result<(), MapFault> {
        Pager::push_down(self, push)
    }

    fn root(&self) -> u64 {
        Pager::root(self)
    }

    fn next_id(&self) -> u64 {
        Pager::next_id(self)
    }

    fn kept(&self) -> u64 {
        Pager::kept(self)
    }

    fn count(&self, id: u64) -> u64 {
        Pager::count(self, id)
    }

    fn level(&self, id: u64) -> u32 {
        Pager::level(self, id)
    }

    fn root_size(&self) -> usize {
        Pager::root_size(self)
    }

    fn visits(&self) -> u64 {
        Pager::visits(self)
    }

    fn faults(&self) -> u64 {
        Pager::faults(self)
    }
}
