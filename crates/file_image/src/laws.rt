ghost use Rattle.file_image.specs.Changes.{Add, AddTo, Keep, StandsForOne, StaysBy};
ghost use Rattle.file_image.specs.NewStore.{NewStoreStands};

/// The files of a new store stand for commit 0 alone, in revision 1 and generation 1.
pub fn new_store()
    ensures { NewStoreStands }
{}

/// An image stands for one durable.
pub fn stands_for_one()
    ensures { StandsForOne }
{
    doc_stream::scanned_is_one();
    header_block::headers_are_one();
    meta_slots::current_is_one();
}

/// An image stands for the same where it is the same up to its last header and no sealed header lies behind.
pub fn keeps()
    ensures file { StaysBy }
    ensures image { Keep }
{
    doc_stream::scanned_stays();
    header_block::headers_stay();
}

/// With one header more that links to its last one, an image stands for one commit more; a file stands for the commit of
/// its last header and those of the headers that this links to.
pub fn adds()
    ensures file { AddTo }
    ensures image { Add }
{
    doc_stream::scanned_stays();
    header_block::headers_stay();
}
